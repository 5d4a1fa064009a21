ghost use Rattle.std.specs.Prelude.{◌≡◌, [], ◌∷◌, codes, true, false, None, Some, Ok, Err};
ghost use Rattle.pv_tree.specs.declared.Tree.TheVariants as tree;
ghost use Rattle.pv_command.specs.Command as spec;
ghost use Rattle.pv_command.specs.declared.Command.TheVariants as asked;
ghost use Rattle.pv_command.specs.Options.{no_options};

use pv_command::{Asked, Words, command};

#[test]
fn no_words_are_refused_at_the_first_place(rt: HostRuntime) {
    let words = Words::new(rt.alloc());
    assert!(rt; matches!(command(&words), Ok(Asked::Refused { at: 1 })));
}

/// What the definition says of the words of commands other than `validate`.
fn words_of_other_commands()
    ensures check { spec.command (codes "check" ∷ codes "-" ∷ []) ≡ Ok (asked.Check (codes "-")) }
    ensures check_more { spec.command (codes "check" ∷ codes "S" ∷ codes "D" ∷ []) ≡ Err 3 }
    ensures check_strict { spec.command (codes "check" ∷ codes "--strict" ∷ codes "S" ∷ []) ≡ Err 2 }
    ensures jsonschema { spec.command (codes "jsonschema" ∷ []) ≡ Err 2 }
    ensures lines { spec.command (codes "lines" ∷ codes "--lax" ∷ codes "S" ∷ codes "-" ∷ []) ≡
        Ok (asked.Lines (Some false) (codes "S") (codes "-")) }
    ensures lines_alias { spec.command (codes "lines" ∷ codes "--by-alias" ∷ codes "S" ∷ codes "D" ∷ []) ≡ Err 2 }
    ensures seed_zero { spec.command (codes "workload" ∷ codes "01" ∷ codes "3" ∷ []) ≡ Err 2 }
    ensures seed_most { spec.command (codes "workload" ∷ codes "18446744073709551615" ∷ codes "100000" ∷ []) ≡
        Ok (asked.Workload 18446744073709551615 100000) }
    ensures seed_large { spec.command (codes "workload" ∷ codes "18446744073709551616" ∷ codes "3" ∷ []) ≡ Err 2 }
    ensures count_large { spec.command (codes "workload" ∷ codes "1" ∷ codes "100001" ∷ []) ≡ Err 3 }
    ensures seed_sign { spec.command (codes "workload" ∷ codes "+1" ∷ codes "3" ∷ []) ≡ Err 2 }
    ensures count_none { spec.command (codes "workload" ∷ codes "0" ∷ codes "" ∷ []) ≡ Err 3 }
    ensures pick_missing { spec.command (codes "dump" ∷ codes "--include" ∷ []) ≡ Err 3 }
    ensures pick_number { spec.command (codes "dump" ∷ codes "--include" ∷ codes "3" ∷ codes "S" ∷ codes "D" ∷ []) ≡ Err 3 }
    ensures pick_option { spec.command (codes "dump" ∷ codes "--include" ∷ codes "--exclude" ∷ codes "S" ∷ codes "D" ∷ []) ≡ Err 3 }
    ensures flag_twice { spec.command (codes "dump" ∷ codes "--exclude-none" ∷ codes "--exclude-none" ∷ codes "S" ∷ codes "D" ∷ []) ≡ Err 3 }
    ensures dump { spec.command (codes "dump" ∷ codes "--by-alias" ∷ codes "--include" ∷ codes "true" ∷ codes "--strict" ∷ codes "S" ∷ codes "D" ∷ []) ≡
        Ok (asked.Dump (record no_options { strict = Some true; include = Some (tree.Bool true); by_alias = true }) (codes "S") (codes "D")) }
{}

#[test]
fn other_commands_have_their_words(_rt: HostRuntime) {
    words_of_other_commands();
}
