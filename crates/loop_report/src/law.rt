// What holds of every loop.
ghost use Rattle.std.specs.Prelude.{◌≡◌, List, [], ◌↔◌};
ghost use Rattle.bulk_model.specs.declared.plan.Edge.{Edge};
ghost use Rattle.dep_graph.specs.Graphs.{IsGraph};
ghost use Rattle.loop_report.specs.Loops.{exact_loop, HasOrder};

/// A law over the definitions alone: a graph has a dependency order exactly where it has no loop. It does nothing.
pub fn an_order_or_a_loop()
    ensures { (graph : List (List Edge)) → IsGraph graph → HasOrder graph ↔ (exact_loop graph ≡ []) }
{}
