// A law of command lines.
ghost use Rattle.std.specs.Prelude.{◌≡◌, ℕ, List};
ghost use Rattle.polis_words.specs.Requests.{Asks};
ghost use Rattle.polis_words.specs.declared.requests.Request.{Request};

/// A command line asks for one request at most.
pub fn laws()
    ensures { (words : List (List ℕ)) (a b : Request) → Asks words a → Asks words b → a ≡ b }
{}
