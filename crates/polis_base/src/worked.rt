// Worked texts: what the definition of tokens says of them.
ghost use Rattle.std.specs.Prelude.{[], codes};
ghost use Rattle.polis_base.specs.declared.token.LexError.{LexError};
ghost use Rattle.polis_base.specs.TokenSamples.{Reads, Fails, Meets, name_and_mark, zero_zero_seven, zero_to_seven, one_and_x, assign, keyword_and_name, longest_name, largest_number, after_comment, comment_then};

/// The definition gives the tokens of the worked texts: the longest at each place, and the first
/// fault.
pub fn worked_tokens()
    ensures zeros_stand_alone { Reads (codes "007") zero_zero_seven }
    ensures dots_are_one { Reads (codes "0..7") zero_to_seven }
    ensures number_ends_before_letter { Reads (codes "1x") one_and_x }
    ensures assign_is_one { Reads (codes ":=") assign }
    ensures keyword_is_whole { Reads (codes "in inx") keyword_and_name }
    ensures name_of_24 { Reads (codes "networkabcdefghijklmnopq") longest_name }
    ensures name_of_25 { Fails (codes "networkabcdefghijklmnopqr") (LexError.NameTooLong 0) }
    ensures number_at_limit { Reads (codes "4294967295") largest_number }
    ensures number_over_limit { Fails (codes "4294967296") (LexError.NumberTooLarge 0) }
    ensures lone_dot { Fails (codes ".") (LexError.BadByte 0) }
    ensures three_dots { Fails (codes "...") (LexError.BadByte 2) }
    ensures bad_byte { Fails (codes "network %") (LexError.BadByte 8) }
    ensures first_fault { Fails (codes "a % 4294967296") (LexError.BadByte 2) }
    ensures met_up_to_fault { Meets (codes "a .% b+5") name_and_mark }
    ensures met_whole { Meets (codes "0..7") zero_to_seven }
    ensures comment_ends_at_lf { Reads (comment_then 10) after_comment }
    ensures comment_goes_over_cr { Reads (comment_then 13) [] }
{}
