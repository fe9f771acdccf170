//! The table from which each query is answered: three cities, with the years in which they were founded.
ghost use Rattle.std.specs.Prelude.{◌≡◌, IfOk};
ghost use Rattle.fixed_answers.specs.Table.{row_of, table};

use dsql_driver_session::ResultSet;
use dsql_value::{Items, Memory, Txt, Value, Values};
use std::alloc::Global;

/// Returns the whole table.
pub(crate) fn table(alloc: Global) -> Result<ResultSet, Memory>
    ensures { IfOk result (λ set. set ≡ table) }
{
    let city = Txt::copy_of(alloc, "city")?;
    let founded = Txt::copy_of(alloc, "founded")?;
    let columns = Items::new(vec![in alloc; city, founded]?);
    let oldest = row(alloc, "Philadelphia", 1682)?;
    let second = row(alloc, "Saint Petersburg", 1703)?;
    let newest = row(alloc, "Canberra", 1913)?;
    let rows = vec![in alloc; oldest, second, newest]?;
    Ok(ResultSet::of(columns, rows))
}

/// Returns the row of a city that was founded in this year.
fn row(alloc: Global, city: &str, year: u16) -> Result<Values, Memory>
    ensures { IfOk result (λ row. row ≡ row_of city.now year) }
{
    let city = Value::Text(Txt::copy_of(alloc, city)?);
    let values = vec![in alloc; city, Value::Int(i64::from(year))]?;
    Ok(Items::new(values))
}
