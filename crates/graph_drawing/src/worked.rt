// What the definitions say of samples.
ghost use Rattle.graph_drawing.specs.Worked.{SampleDrawings, SampleParts};

/// Drawings of small networks byte by byte: a test with three children, labels of more than six
/// words, an event that a machine and the environment read, and assignments of the code 0.
pub fn worked_drawings()
    ensures drawings { SampleDrawings }
    ensures parts { SampleParts }
{}
