// What holds of plans, of the jobs of a tree, of distfiles and of recipes: each law is the contract of a function that does
// nothing.
ghost use Rattle.plan_laws.specs.Laws.{AskedNodesHaveRecipes, DistfilesAreAsStated, JobsAreATree, PlansAreOfTheirTree, RecipesAreOfTheTree};

/// A recipe that is there is that of the tree's job at its node, whatever the plan is. It does nothing.
pub fn recipes_are_of_the_tree()
    ensures { RecipesAreOfTheTree }
{}

/// A node of a plan that can be built has the recipe of its own job, where it is asked for: what is refused of a node's files by
/// itself is refused in a plan too. It does nothing.
pub fn asked_nodes_have_recipes()
    ensures { AskedNodesHaveRecipes }
{}

/// The jobs of a plan are the tree's, save at ignored nodes, where the tree has none, and its base root is the tree's. It does
/// nothing.
pub fn plans_are_of_their_tree()
    ensures { PlansAreOfTheirTree }
{}

/// No two jobs of a tree have one node or one name. It does nothing.
pub fn jobs_are_a_tree()
    ensures { JobsAreATree }
{}

/// Where a port has a list of distfiles, the job of a node of a plan that can be built has below `dist/` just the files of
/// the list, each of the stated size and SHA-256 (Porter's Handbook, "distinfo"). It does nothing.
pub fn distfiles_are_as_stated()
    ensures { DistfilesAreAsStated }
{}
