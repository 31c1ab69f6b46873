//! How names, lists and conditions print in queries.

ghost use Rattle.std.specs.Prelude.{◌≡◌, ◌++◌, Some, map, option_copied};
ghost use Rattle.std.specs.Fmt.{DisplaysOnOk};
ghost use Rattle.msi_query_tokens.specs.Names.{name_text};
ghost use Rattle.msi_query.specs.QueryTexts.{listed, where_text};

use msi_base::text::Text;
use msi_query_expressions::Expr;
use msi_query_tokens::names::write_name;
use std::fmt;

pub(crate) fn write_list<T: fmt::Display, W: fmt::Write>(
    f: &mut fmt::Formatter<W>,
    items: &[T],
) -> fmt::Result
    ensures { DisplaysOnOk W.write_str_gives f.old result (listed (map T.output items.now)) f.new }
{
    let Some((first, others)) = items.split_first() else {
        return Ok(());
    };
    write!(f, "{first}")?;
    for item in others {
        write!(f, ", {item}")?;
    }
    Ok(())
}

pub(crate) fn write_named<W: fmt::Write>(
    f: &mut fmt::Formatter<W>,
    front: &str,
    name: &Text,
) -> fmt::Result
    ensures { DisplaysOnOk W.write_str_gives f.old result (Some (front.now ++ name_text name.now)) f.new }
{
    f.write_str(front)?;
    write_name(f, name.as_str())
}

pub(crate) fn write_name_list<W: fmt::Write>(
    f: &mut fmt::Formatter<W>,
    names: &[Text],
) -> fmt::Result
    ensures { DisplaysOnOk W.write_str_gives f.old result (listed (map (λ name. Some (name_text name)) names.now))
        f.new }
{
    let Some((first, others)) = names.split_first() else {
        return Ok(());
    };
    write_name(f, first.as_str())?;
    for name in others {
        write_named(f, ", ", name)?;
    }
    Ok(())
}

pub(crate) fn write_condition<W: fmt::Write>(
    f: &mut fmt::Formatter<W>,
    condition: Option<&Expr>,
) -> fmt::Result
    ensures { DisplaysOnOk W.write_str_gives f.old result (where_text (option_copied condition.entry)) f.new }
{
    match condition {
        Some(condition) => write!(f, " WHERE {condition}"),
        None => Ok(()),
    }
}
