// Catalogues of packages that are written as records.
use bulk_model::{Package, Shared};
use case_text::{CaseError, bytes_of};
use catalogue::catalogue;
use pkg_record::{Record, read};
use std::alloc::{AllocError, Global};

fn package_of(alloc: Global, field: &str) -> Result<Shared<Package>, CaseError> {
    let bytes = bytes_of(alloc, field)?;
    match read(alloc, bytes.as_slice()) {
        Ok(Record::New(package)) => Ok(Shared::new(alloc, package)?),
        Ok(Record::Old { .. }) | Err(_) => Err(CaseError::Unfit),
    }
}

fn packages_of(alloc: Global, records: &[&str]) -> Result<Vec<Shared<Package>>, CaseError> {
    let mut packages = Vec::new(alloc);
    for record in records {
        packages
            .push(package_of(alloc, record)?)
            .map_err(AllocError::from)?;
    }
    Ok(packages)
}

fn push_catalogue(
    alloc: Global,
    packages: &[Shared<Package>],
    out: &mut Vec<u8>,
) -> Result<(), AllocError> {
    let text = catalogue(alloc, packages)?;
    out.extend_from_slice(text.as_slice())
}

/// The catalogue of the packages of these records.
pub(crate) fn answer_catalogue(
    alloc: Global,
    records: &[&str],
    out: &mut Vec<u8>,
) -> Result<(), CaseError> {
    let packages = packages_of(alloc, records)?;
    Ok(push_catalogue(alloc, packages.as_slice(), out)?)
}
