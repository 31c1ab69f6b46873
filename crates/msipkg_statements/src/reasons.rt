//! Why a package refuses a query or a statement: the table, the column and the value.

use crate::inserting::insert_fault;
use crate::naming::{NamedTable, column_fault, table_fault, tables_in};
use crate::values::update_fault;
use msi_query_tokens::token::Kind;
use msipkg_packages::PackageTables;
use msipkg_packages::output::{Failure, said};
use msipkg_queries::pieces::Piece;
use msipkg_queries::written::{Written, pieces_of};
use std::alloc::{AllocError, Global};

/// Returns the failure of a query or a statement that a package refused, with the table, the column and the value that
/// is at fault, where one is.
pub fn explained<P: PackageTables>(
    alloc: Global,
    package: &P,
    written: Written<'_>,
    failure: Failure,
) -> Failure {
    if failure.is_invalid_data() {
        return failure;
    }
    match fault_in(alloc, package, written) {
        Ok(Some(fault)) => said(Ok(fault)),
        Ok(None) => failure,
        Err(error) => Failure::from(error),
    }
}

fn fault_in<P: PackageTables>(
    alloc: Global,
    package: &P,
    written: Written<'_>,
) -> Result<Option<String>, AllocError> {
    let pieces = pieces_of(alloc, written)?;
    let fault = table_fault(alloc, package, pieces.as_slice())?;
    if fault.is_some() {
        return Ok(fault);
    }
    let tables = tables_in(alloc, package, pieces.as_slice())?;
    let fault = column_fault(alloc, tables.as_slice(), pieces.as_slice())?;
    if fault.is_some() {
        return Ok(fault);
    }
    value_fault_in(alloc, tables.as_slice(), pieces.as_slice())
}

fn value_fault_in(
    alloc: Global,
    tables: &[NamedTable<'_>],
    pieces: &[Piece<'_>],
) -> Result<Option<String>, AllocError> {
    let ([NamedTable { table, .. }], Some(first)) = (tables, pieces.first()) else {
        return Ok(None);
    };
    match first.kind {
        Kind::Insert => insert_fault(alloc, table, pieces),
        Kind::Update => update_fault(alloc, table, pieces),
        _ => Ok(None),
    }
}
