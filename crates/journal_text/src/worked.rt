// The worked texts: what the definition says of small journal texts.
ghost use Rattle.std.specs.Prelude.{◌≡◌, ◌++◌, ◌∷◌, [], true, false, Ok, Err, Some, None, codes};
ghost use Rattle.polis_base.specs.Lines.{line};
ghost use Rattle.journals.specs.Samples.{lamp, lamp_run, join, value};
ghost use Rattle.journals.specs.Runs.{join_overwritten_run};
ghost use Rattle.journal_text.specs.Texts.{journal_text, stamped_journal_text};
ghost use Rattle.journal_text.specs.Reading.{read_of};
ghost use Rattle.journal_text.specs.Samples.{head_1, head_2, join_with, join_entries, join_stamped, one_delivery};
ghost use Rattle.journal_text.specs.declared.fault.JournalFault.{JournalFault};
ghost use Rattle.journal_text.specs.declared.fault.JournalKind.{JournalKind};

/// What is read of the good texts, and where those with one alteration are at fault.
pub fn worked_texts()
    ensures lamp { read_of lamp (head_2 ++ line (codes "@1 dep env lamp_ctl press")
        ++ line (codes "@2 fire lamp_ctl : press ; s=off -> s=on ; light")
        ++ line (codes "end 2 complete")) ≡ Ok (lamp_run, Some (1 ∷ 2 ∷ []), true) }
    ensures lamp_printed { stamped_journal_text lamp lamp_run (1 ∷ 2 ∷ []) true
        ≡ head_2 ++ line (codes "@1 dep env lamp_ctl press")
        ++ line (codes "@2 fire lamp_ctl : press ; s=off -> s=on ; light")
        ++ line (codes "end 2 complete") }
    ensures stamped { read_of join (join_stamped (codes "@1"))
        ≡ Ok (join_overwritten_run, Some (1 ∷ 2 ∷ 3 ∷ 4 ∷ []), true) }
    ensures join { read_of join (join_entries ++ line (codes "end 4 complete"))
        ≡ Ok (join_overwritten_run, None, true) }
    ensures limit { read_of join (head_1 ++ line (codes "dep env m a")
        ++ line (codes "end 1 limit")) ≡ Ok (one_delivery, None, false) }
    ensures none { read_of join (head_1 ++ line (codes "end 0 complete")) ≡ Ok ([], None, true) }
    ensures no_last_line { read_of join join_entries ≡ Err (JournalFault.Line 6 JournalKind.End) }
    ensures other_count { read_of join (join_entries ++ line (codes "end 5 complete"))
        ≡ Err (JournalFault.Line 6 JournalKind.Count) }
    ensures stamp_0 { read_of join (join_stamped (codes "@0"))
        ≡ Err (JournalFault.Line 2 JournalKind.Stamp) }
    ensures stamp_01 { read_of join (join_stamped (codes "@01"))
        ≡ Err (JournalFault.Line 2 JournalKind.Shape) }
    ensures no_event { read_of join (join_with (codes "dep env m zz") (codes "fire m : a b ; - -> - ; c")
        ++ line (codes "end 4 complete")) ≡ Err (JournalFault.Line 2 JournalKind.Name) }
    ensures no_value { read_of join (join_with (codes "dep env m a=1") (codes "fire m : a b ; - -> - ; c")
        ++ line (codes "end 4 complete")) ≡ Err (JournalFault.Line 2 JournalKind.Value) }
    ensures other_order { read_of join (join_with (codes "dep env m a") (codes "fire m : b a ; - -> - ; c")
        ++ line (codes "end 4 complete")) ≡ Err (JournalFault.Line 5 JournalKind.Name) }
    ensures leading_zero { read_of join (join_entries ++ line (codes "end 04 complete"))
        ≡ Err (JournalFault.Line 6 JournalKind.Shape) }
    ensures line_after { read_of join (join_entries ++ line (codes "end 4 complete") ++ line (codes "x"))
        ≡ Err (JournalFault.Line 7 JournalKind.After) }
    ensures no_text { read_of join [] ≡ Err (JournalFault.Line 1 JournalKind.Header) }
    ensures head_without_lf { read_of join (codes "polis journal 1")
        ≡ Err (JournalFault.Line 1 JournalKind.Header) }
    ensures head_alone { read_of join head_1 ≡ Err (JournalFault.Line 2 JournalKind.End) }
    ensures no_lf { read_of join (join_entries ++ codes "end 4 complete")
        ≡ Err (JournalFault.Line 6 JournalKind.Shape) }
    ensures two_spaces { read_of join (join_with (codes "dep env  m a") (codes "fire m : a b ; - -> - ; c"))
        ≡ Err (JournalFault.Line 2 JournalKind.Shape) }
    ensures space_after { read_of join (join_with (codes "dep env m a ") (codes "fire m : a b ; - -> - ; c"))
        ≡ Err (JournalFault.Line 2 JournalKind.Shape) }
    ensures dash_and_word { read_of join (join_with (codes "dep env m a") (codes "fire m : a - ; - -> - ; c"))
        ≡ Err (JournalFault.Line 5 JournalKind.Shape) }
    ensures sender_with_value { read_of join (join_with (codes "dep env=1 m a") (codes "fire m : a b ; - -> - ; c"))
        ≡ Err (JournalFault.Line 2 JournalKind.Name) }
    ensures state_missing { read_of lamp (head_1 ++ line (codes "idle lamp_ctl : press ; -"))
        ≡ Err (JournalFault.Line 2 JournalKind.Name) }
    ensures value_before_name { read_of lamp (head_1 ++ line (codes "idle lamp_ctl : press=1 ; zz"))
        ≡ Err (JournalFault.Line 2 JournalKind.Value) }
    ensures no_such_value { read_of value (head_1 ++ line (codes "dep env m v=8"))
        ≡ Err (JournalFault.Line 2 JournalKind.Value) }
    ensures unstamped { read_of join (head_2 ++ line (codes "dep env m a"))
        ≡ Err (JournalFault.Line 2 JournalKind.Shape) }
    ensures count_before_after { read_of join (head_1 ++ line (codes "end 1 complete") ++ codes "x")
        ≡ Err (JournalFault.Line 2 JournalKind.Count) }
{}
