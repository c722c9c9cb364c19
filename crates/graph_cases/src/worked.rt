// Worked examples of the definitions of builds, statuses, causes, orders, printed lists, records and sound stores, which the
// prover computes.
ghost use Rattle.std.specs.Prelude.{◌≡◌, true, false, List, [], ◌∷◌, length, codes, Some, None, map};
ghost use Rattle.bulk_model.specs.declared.outcome.Outcome.TheVariants.{Built as MadePackage, Failed as FailedBuild};
ghost use Rattle.bulk_model.specs.declared.outcome.Phase.TheVariants.{Depends as DependsPhase, Build as BuildPhase, Stage as StagePhase};
ghost use Rattle.bulk_model.specs.declared.reason.Reason.TheVariants.{NewOptions, MissingDepend};
ghost use Rattle.bulk_model.specs.declared.results.Status.TheVariants.{Failed, Ignored, Skipped};
ghost use Rattle.bulk_model.specs.Cause.{cause};
ghost use Rattle.graph_cases.specs.Examples.{port_with, package_with, baked, plain, made, made_by, built, kept, come, come_over, text, diamond, fork, ladder, ignoring, tools, bare, apart, boosting, order_of, dry_text_of, port_hello, package_hello, still, port};
ghost use Rattle.bulk_model.specs.Installs.{installs};
ghost use Rattle.bulk_model.specs.Lists.{lists, exit_status};
ghost use Rattle.bulk_model.specs.Recipe.{recipe_text};
ghost use Rattle.bulk_model.specs.Sound.{Recipe, IsSound, recipe_of};
ghost use Rattle.bulk_model.specs.Spelling.{unsigned};
ghost use Rattle.bulk_model.specs.declared.version.Version.TheVariants.{One, Two};

fn builds()
    ensures unknown { baked (port_with (codes "x") [] (codes "cc hello.c" ∷ [])) [] ≡ FailedBuild StagePhase 127 }
    ensures failed { baked (port_with (codes "x") (codes "true" ∷ codes "exit 3" ∷ []) (codes "false" ∷ [])) [] ≡ FailedBuild BuildPhase 3 }
    ensures collided { baked (port_with (codes "u") [] []) (package_with (codes "t1") (codes "bin/tool") [] ∷ package_with (codes "t2") (codes "bin/tool") [] ∷ []) ≡ FailedBuild DependsPhase 1 }
{}

fn installed()
    ensures direct { installs diamond 1 ≡ 0 ∷ [] }
    ensures not_what_others_build_with { installs diamond 3 ≡ 1 ∷ 2 ∷ [] }
    ensures closed { installs ladder 0 ≡ 1 ∷ 2 ∷ 3 ∷ [] }
{}

fn statuses()
    ensures all_built { come diamond (map (λ job. made_by job) diamond.jobs) ≡ built (codes "bot") ∷ built (codes "left") ∷ built (codes "right") ∷ built (codes "top") ∷ [] }
    ensures all_skipped { come diamond (Some (FailedBuild BuildPhase 3) ∷ None ∷ None ∷ None ∷ []) ≡ Failed BuildPhase 3 ∷ Skipped ∷ Skipped ∷ Skipped ∷ [] }
    ensures all_kept { come_over fork (Some (plain (codes "b1")) ∷ Some (plain (codes "b2")) ∷ Some (plain (codes "top")) ∷ []) (None ∷ None ∷ None ∷ []) ≡ kept (codes "b1") ∷ kept (codes "b2") ∷ kept (codes "top") ∷ [] }
    ensures ignored { come ignoring (None ∷ None ∷ []) ≡ Ignored ∷ Skipped ∷ [] }
    ensures collided { come tools (made (codes "t1") ∷ made (codes "t2") ∷ Some (FailedBuild DependsPhase 1) ∷ None ∷ []) ≡ built (codes "t1") ∷ built (codes "t2") ∷ Failed DependsPhase 1 ∷ Skipped ∷ [] }
{}

fn causes()
    ensures through_the_skipped { cause diamond (Failed BuildPhase 3 ∷ Skipped ∷ Skipped ∷ Skipped ∷ []) 3 ≡ 0 }
    ensures least_of_two { cause fork (Failed BuildPhase 1 ∷ Failed BuildPhase 2 ∷ Skipped ∷ []) 2 ≡ 0 }
    ensures ignored { cause ignoring (Ignored ∷ Skipped ∷ []) 1 ≡ 0 }
{}

fn printed()
    ensures failed { lists fork (Failed BuildPhase 1 ∷ Failed BuildPhase 2 ∷ Skipped ∷ []) [] [] ≡ text (codes "deleted 0" ∷ codes "kept 0" ∷ codes "built 0" ∷ codes "failed 2" ∷ codes "  a/b1 b1-1.0 build 1" ∷ codes "  a/b2 b2-1.0 build 2" ∷ codes "ignored 0" ∷ codes "skipped 1" ∷ codes "  a/top top-1.0 because a/b1" ∷ codes "total 3" ∷ []) }
    ensures ignored { lists ignoring (Ignored ∷ Skipped ∷ []) [] [] ≡ text (codes "deleted 0" ∷ codes "kept 0" ∷ codes "built 0" ∷ codes "failed 0" ∷ codes "ignored 1" ∷ codes "  a/i i-1.0 no" ∷ codes "skipped 1" ∷ codes "  a/u u-1.0 because a/i" ∷ codes "total 2" ∷ []) }
    ensures deleted { lists ignoring (Ignored ∷ kept (codes "u") ∷ []) (record { file = codes "i-1.0.pkg"; reason = NewOptions } ∷ record { file = codes "u-1.0.pkg"; reason = MissingDepend } ∷ []) (record { word = codes "a/o1"; name = codes "a/u" } ∷ []) ≡ text (codes "moved a/o1 a/u" ∷ codes "deleted 2" ∷ codes "  i-1.0.pkg new-options" ∷ codes "  u-1.0.pkg missing-depend" ∷ codes "kept 1" ∷ codes "  a/u u-1.0" ∷ codes "built 0" ∷ codes "failed 0" ∷ codes "ignored 1" ∷ codes "  a/i i-1.0 no" ∷ codes "skipped 0" ∷ codes "total 2" ∷ []) }
    ensures setback { exit_status (Ignored ∷ Skipped ∷ []) ≡ 1 }
    ensures none { exit_status (Ignored ∷ kept (codes "u") ∷ []) ≡ 0 }
{}

fn orders()
    ensures least_of_the_highest { order_of apart ≡ 2 ∷ 0 ∷ 1 ∷ [] }
    ensures boosted { order_of (boosting (true ∷ false ∷ false ∷ []) apart) ≡ 0 ∷ 2 ∷ 1 ∷ [] }
    ensures behind_its_dependency { order_of (boosting (false ∷ true ∷ false ∷ []) apart) ≡ 2 ∷ 1 ∷ 0 ∷ [] }
    ensures longest_chain_first { order_of ladder ≡ 4 ∷ 3 ∷ 2 ∷ 1 ∷ 0 ∷ [] }
{}

fn dry_runs()
    ensures in_order { dry_text_of fork ≡ text (codes "would delete 0" ∷ codes "would keep 0" ∷ codes "would build 3" ∷ codes "  a/b1 b1-1.0" ∷ codes "  a/b2 b2-1.0" ∷ codes "  a/top top-1.0" ∷ codes "ignored 0" ∷ codes "would skip 0" ∷ codes "total 3" ∷ []) }
    ensures skipped { dry_text_of ignoring ≡ text (codes "would delete 0" ∷ codes "would keep 0" ∷ codes "would build 0" ∷ codes "ignored 1" ∷ codes "  a/i i-1.0 no" ∷ codes "would skip 1" ∷ codes "  a/u u-1.0 because a/i" ∷ codes "total 2" ∷ []) }
{}

fn records()
    ensures recipe { length (recipe_text [] port_hello) ≡ 154 }
    ensures lines { length (unsigned Two package_hello) ≡ 168 }
    ensures old_lines { length (unsigned One package_hello) ≡ 96 }
{}

fn sound_stores()
    ensures empty { (table : List Recipe) → IsSound still table [] }
    ensures one { IsSound still (recipe_of [] (port (codes "x")) ∷ []) (plain (codes "x") ∷ []) }
{}

/// The examples, which hold; it does nothing.
pub(crate) fn examples() {
    builds();
    installed();
    statuses();
    causes();
    printed();
    orders();
    dry_runs();
    records();
    sound_stores();
}
