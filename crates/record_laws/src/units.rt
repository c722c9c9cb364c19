// Where the lines and pieces of a record stop.
ghost use Rattle.record_laws.specs.Units.{ShortIsUnfinished, BadFieldIsUnfit};

/// Bytes are Short exactly where the line with the digest does not end in them and each line or piece that ends in them
/// fits what stands before it; an unfinished rest is not looked at (docs/FORMATS.md, "The package record").
pub fn short_is_unfinished()
    ensures { ShortIsUnfinished }
{}

/// Bytes have a bad field exactly where a line or piece that ends in them does not fit what stands before it, or bytes
/// stand behind the line with the digest; its place is where the first such begins (docs/FORMATS.md, "The package
/// record").
pub fn bad_field_is_unfit()
    ensures { BadFieldIsUnfit }
{}
