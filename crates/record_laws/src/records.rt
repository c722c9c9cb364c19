// What holds of any two records.
ghost use Rattle.record_laws.specs.Records.{NoRecordBeginsAnother};

/// No record of either version begins another, so that a record ends by itself and one package has one record
/// (docs/FORMATS.md, "The package record").
pub fn no_record_begins_another()
    ensures { NoRecordBeginsAnother }
{}
