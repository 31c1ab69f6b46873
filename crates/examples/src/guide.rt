//! The code of docs/GUIDE.md, in its order. Each task is done on a package in memory, and prints a line or two.

use msi::transforms::{ErrorConditions, Transform};
use msi::{
    Column, Delete, Error, ErrorKind, Expr, Insert, LanguageId, Memory, Package, PackageType, Row,
    Select, Update, Value, ValueView,
};
use msi_view::View;
use std::alloc::Global;
use std::io::{self, Read, Write};

/// Does the tasks in turn.
pub fn follow(rt: &HostRuntime) -> Result<(), Error> {
    let file = fill_package(rt)?;
    make_and_apply_transform(rt, file.as_slice())?;
    look_at_features(rt, file.to_vec(rt.alloc())?)?;
    open_and_handle_errors(rt, file)?;
    open_and_handle_errors(rt, b"Dear reader".to_vec(rt.alloc())?)
}

/// Makes a package, does the tasks that change it, and returns the bytes of its file.
fn fill_package(rt: &HostRuntime) -> Result<Vec<u8>, Error> {
    let mut package = make_package(rt)?;
    change_package(rt, &mut package)?;
    written(package)
}

/// Does the tasks that change a package.
fn change_package(rt: &HostRuntime, package: &mut Package<Memory>) -> Result<(), Error> {
    create_table(rt, package)?;
    insert_rows(rt, package)?;
    change_rows(rt, package)?;
    select_rows(rt, package)?;
    look_at_names(rt, package)?;
    join_tables(rt, package)?;
    put_and_take_stream(rt, package)?;
    set_summary(rt, package)
}

/// Makes a package in memory, with a title and the system tables.
fn make_package(rt: &HostRuntime) -> Result<Package<Memory>, Error> {
    let device = Memory::from_vec(Vec::new(rt.alloc()));
    let package = Package::create(rt.alloc(), PackageType::Installer, device)?;
    let title = package.summary_info().title().unwrap_or("untitled");
    println!(rt; "made: {title}")?;
    Ok(package)
}

/// Writes what was changed, and returns the bytes of the file.
fn written(mut package: Package<Memory>) -> Result<Vec<u8>, Error> {
    package.flush()?;
    Ok(package.into_reader().into_vec())
}

/// Returns the columns of a table of features.
fn feature_columns(alloc: Global) -> Result<Vec<Column>, Error> {
    let feature = Column::build(alloc, "Feature")?.primary_key().id_string(38);
    let title = Column::build(alloc, "Title")?.nullable().text_string(64);
    let level = Column::build(alloc, "Level")?.range(0, 32767).int16();
    Ok(vec![in alloc; feature, title, level]?)
}

/// Creates a table of the features that can be installed.
fn create_table(rt: &HostRuntime, package: &mut Package<Memory>) -> Result<(), Error> {
    package.create_table("Feature", feature_columns(rt.alloc())?)?;
    println!(rt; "tables: {}", package.tables().len())?;
    Ok(())
}

/// Returns the values of a row, in the order of the table's columns.
fn feature(alloc: Global, name: &str, title: &str, level: i32) -> Result<Vec<Value>, Error> {
    let name = Value::from_text(alloc, name)?;
    let title = Value::from_text(alloc, title)?;
    Ok(vec![in alloc; name, title, Value::Int(level)]?)
}

/// Returns how many rows a table has.
fn count_rows(alloc: Global, package: &Package<Memory>, table: &str) -> Result<usize, Error> {
    Ok(package.select_rows(Select::table(alloc, table)?)?.len())
}

/// Returns the query that inserts three rows.
fn insert_features(alloc: Global) -> Result<Insert, Error> {
    Insert::into(alloc, "Feature")?
        .row(feature(alloc, "Main", "Program", 1)?)?
        .row(feature(alloc, "Help", "Help pages", 3)?)?
        .row(feature(alloc, "Samples", "Sample files", 4)?)
}

/// Inserts three rows.
fn insert_rows(rt: &HostRuntime, package: &mut Package<Memory>) -> Result<(), Error> {
    package.insert_rows(insert_features(rt.alloc())?)?;
    println!(rt; "features: {}", count_rows(rt.alloc(), package, "Feature")?)?;
    Ok(())
}

/// Returns the condition that holds in the row of this feature.
fn is_feature(alloc: Global, name: &str) -> Result<Expr, Error> {
    let name = Expr::string(alloc, name)?;
    Expr::col(alloc, "Feature")?.eq(alloc, name)
}

/// Returns the query that lowers the level of one feature.
fn lower_level(alloc: Global) -> Result<Update, Error> {
    let lower = Update::table(alloc, "Feature")?.set("Level", Value::Int(2))?;
    lower.with(is_feature(alloc, "Help")?)
}

/// Returns the query that deletes one feature.
fn delete_samples(alloc: Global) -> Result<Delete, Error> {
    Delete::from(alloc, "Feature")?.with(is_feature(alloc, "Samples")?)
}

/// Changes one row, and deletes another.
fn change_rows(rt: &HostRuntime, package: &mut Package<Memory>) -> Result<(), Error> {
    let alloc = rt.alloc();
    package.update_rows(lower_level(alloc)?)?;
    package.delete_rows(delete_samples(alloc)?)?;
    println!(rt; "features: {}", count_rows(alloc, package, "Feature")?)?;
    Ok(())
}

/// Returns the query that selects the features whose level is at most 3.
fn low_levels(alloc: Global) -> Result<Select, Error> {
    let condition = Expr::col(alloc, "Level")?.le(alloc, Expr::integer(3))?;
    Select::table(alloc, "Feature")?.with(condition)
}

/// Prints the title of a feature.
fn print_title(rt: &HostRuntime, feature: &Row) -> io::Result<()> {
    if feature.has_column("Title") {
        println!(rt; "selected: {}", feature["Title"])?;
    }
    Ok(())
}

/// Prints the titles of the features whose level is at most 3.
fn select_rows(rt: &HostRuntime, package: &Package<Memory>) -> Result<(), Error> {
    for row in package.select_rows(low_levels(rt.alloc())?)? {
        print_title(rt, &row?)?;
    }
    Ok(())
}

/// Prints how many bytes the longest name of a feature has.
fn look_at_names(rt: &HostRuntime, package: &Package<Memory>) -> Result<(), Error> {
    let mut longest = 0;
    let mut rows = package.select_rows(Select::table(rt.alloc(), "Feature")?)?;
    for _ in 0..rows.len() {
        if let Some(ValueView::Str(name)) = rows.get(0) {
            longest = name.len().max(longest);
        }
        rows.advance();
    }
    println!(rt; "longest name: {longest} bytes")?;
    Ok(())
}

/// Returns the columns of a table of the components of features.
fn component_columns(alloc: Global) -> Result<Vec<Column>, Error> {
    let feature = Column::build(alloc, "Feature_")?
        .primary_key()
        .id_string(38);
    let component = Column::build(alloc, "Component_")?
        .primary_key()
        .id_string(72);
    Ok(vec![in alloc; feature, component]?)
}

/// Returns the query that inserts two of them.
fn insert_components(alloc: Global) -> Result<Insert, Error> {
    Insert::into(alloc, "FeatureComponents")?
        .row(component_of(alloc, "Main", "Editor")?)?
        .row(component_of(alloc, "Main", "Viewer")?)
}

/// Returns the values of a row that gives a component to a feature.
fn component_of(alloc: Global, feature: &str, component: &str) -> Result<Vec<Value>, Error> {
    let feature = Value::from_text(alloc, feature)?;
    let component = Value::from_text(alloc, component)?;
    Ok(vec![in alloc; feature, component]?)
}

/// Prints the values of a row.
fn print_row(rt: &HostRuntime, row: &Row) -> io::Result<()> {
    let mut before = "joined: ";
    for i in 0..row.len() {
        print!(rt; "{before}{}", row[i])?;
        before = ", ";
    }
    println!(rt; "")
}

/// Returns the query that selects the title of each feature beside each of its components.
fn titles_and_components(alloc: Global) -> Result<Select, Error> {
    let component_feature = Expr::col(alloc, "FeatureComponents.Feature_")?;
    let on = Expr::col(alloc, "Feature.Feature")?.eq(alloc, component_feature)?;
    Select::table(alloc, "Feature")?
        .inner_join(Select::table(alloc, "FeatureComponents")?, on)?
        .columns(&["Feature.Title", "FeatureComponents.Component_"])
}

/// Creates a table of components, and prints the title of each feature beside each of its components.
fn join_tables(rt: &HostRuntime, package: &mut Package<Memory>) -> Result<(), Error> {
    let alloc = rt.alloc();
    package.create_table("FeatureComponents", component_columns(alloc)?)?;
    package.insert_rows(insert_components(alloc)?)?;
    for row in package.select_rows(titles_and_components(alloc)?)? {
        print_row(rt, &row?)?;
    }
    Ok(())
}

/// Puts bytes into a stream of the package, and reads them again.
fn put_and_take_stream(rt: &HostRuntime, package: &mut Package<Memory>) -> Result<(), Error> {
    package
        .write_stream("Licence.txt")?
        .write_all(b"Do as you like.\n")?;
    let mut bytes = Vec::new(rt.alloc());
    package.read_stream("Licence.txt")?.read_to_end(&mut bytes)?;
    println!(rt; "stream of {} bytes", bytes.len())?;
    Ok(())
}

/// Sets properties of the summary.
fn set_summary(rt: &HostRuntime, package: &mut Package<Memory>) -> Result<(), Error> {
    let summary = package.summary_info_mut()?;
    summary.set_author("Joluveman")?;
    summary.set_arch("x64")?;
    summary.set_languages(&[LanguageId::from_id(1033)])?;
    let author = package.summary_info().author().unwrap_or("nobody");
    println!(rt; "author: {author}")?;
    Ok(())
}

/// Returns the file of the transform from one package to another.
fn transform_file(
    alloc: Global,
    old: &mut Package<Memory>,
    new: &mut Package<Memory>,
) -> Result<Vec<u8>, Error> {
    match old.transform_to(new) {
        Ok(transform) => transform.into_bytes(alloc),
        Err(refusal) => Err(refusal.into_error()),
    }
}

/// Applies the transform in a file to a package. No error of a record is ignored.
fn apply_file(alloc: Global, package: &mut Package<Memory>, file: Vec<u8>) -> Result<(), Error> {
    let transform = Transform::read(alloc, file)?;
    match package.apply_transform(&transform, ErrorConditions::default()) {
        Ok(()) => Ok(()),
        Err(refusal) => Err(refusal.into_error()),
    }
}

/// Makes the transform that drops a table, and applies it.
fn make_and_apply_transform(rt: &HostRuntime, file: &[u8]) -> Result<(), Error> {
    let alloc = rt.alloc();
    let mut old = Package::open(alloc, Memory::from_vec(file.to_vec(alloc)?))?;
    let mut new = Package::open(alloc, Memory::from_vec(file.to_vec(alloc)?))?;
    new.drop_table("FeatureComponents")?;
    let transform = transform_file(alloc, &mut old, &mut new)?;
    apply_file(alloc, &mut old, transform)?;
    println!(rt; "transformed: {} tables", old.tables().len())?;
    Ok(())
}

/// Looks at one table of a package; other tables and streams aren't read.
fn look_at_features(rt: &HostRuntime, file: Vec<u8>) -> Result<(), Error> {
    let mut view = View::open(rt.alloc(), Memory::from_vec(file))?;
    let rows = view.select_rows(&Select::table(rt.alloc(), "Feature")?)?;
    println!(rt; "looked at: {} features", rows.len())?;
    Ok(())
}

/// Returns the query that inserts one feature.
fn insert_main(alloc: Global) -> Result<Insert, Error> {
    Insert::into(alloc, "Feature")?.row(feature(alloc, "Main", "Program", 1)?)
}

/// Opens a package that another program made, adds a feature to it, and writes it.
fn add_feature(alloc: Global, file: Vec<u8>) -> Result<(), Error> {
    let mut package = Package::open(alloc, Memory::from_vec(file))?;
    package.insert_rows(insert_main(alloc)?)?;
    package.flush()
}

/// Adds a feature to a package that another program made, or prints why that failed.
fn open_and_handle_errors(rt: &HostRuntime, file: Vec<u8>) -> Result<(), Error> {
    let answer = match add_feature(rt.alloc(), file) {
        Ok(()) => "added",
        Err(error) => match error.kind() {
            ErrorKind::AlreadyExists => "there is such a feature already",
            ErrorKind::InvalidData => "the file is damaged, or no package",
            ErrorKind::InvalidInput => "the row isn't one that the table takes",
            ErrorKind::NotFound => "the package has no features",
            ErrorKind::Io => "the file can't be read or written",
            ErrorKind::OutOfMemory => "memory ran out",
        },
    };
    println!(rt; "feature: {answer}")?;
    Ok(())
}
