// What holds of any two recipes.
ghost use Rattle.record_laws.specs.Recipes.{EachHasItsText};

/// Different pairs of base files and a job have recipes of different texts, so that a recipe's text tells the pair
/// (docs/FORMATS.md, "The recipe").
pub fn each_recipe_has_its_text()
    ensures { EachHasItsText }
{}
