// What holds of every order, of the longest chains and of what is installed.
ghost use Rattle.std.specs.Prelude.{◌≡◌, ◌<◌, ℕ, Bool, List, length, take, slice_index, IsTrue};
ghost use Rattle.bulk_model.specs.declared.plan.Edge.{Edge};
ghost use Rattle.bulk_model.specs.PlanView.{PlanView, is_loopless as has_no_loop};
ghost use Rattle.bulk_model.specs.Installs.{installs};
ghost use Rattle.dep_graph.specs.Graphs.{has, depends_at};
ghost use Rattle.dep_graph.specs.Order.{IsInOrder, is_loopless};
ghost use Rattle.dep_graph.specs.Chains.{IsLongest};

/// Laws over the definitions alone, for the layers above: the first part of an order has with a node all that the node
/// depends on; a dependency has a longer chain of dependents above it; what is installed for a node stands before the
/// node in every order; a plan has no loop where the graph of its edges has none. It does nothing.
pub fn laws()
    ensures prefix { (graph : List (List Edge)) → (list : List ℕ) → (front n d : ℕ) → IsInOrder graph list → IsTrue (has (take front list) n)
        → IsTrue (has (depends_at graph n) d) → IsTrue (has (take front list) d) }
    ensures chains { (graph : List (List Edge)) → (n d above_n above_d : ℕ) → IsLongest graph n above_n → IsLongest graph d above_d
        → IsTrue (has (depends_at graph n) d) → above_n < above_d }
    ensures installed { (plan : PlanView) → (list : List ℕ) → (place d : ℕ) → IsInOrder plan.edges list → place < length list
        → IsTrue (has (installs plan (slice_index list place)) d) → IsTrue (has (take place list) d) }
    ensures loopless { (plan : PlanView) → length plan.edges ≡ length plan.jobs → has_no_loop plan ≡ is_loopless plan.edges }
{}
