// A computed table as parameters. docs/RULES.md, "Extension body and match".
ghost use Rattle.std.specs.Prelude.{◌≡◌};
ghost use Rattle.writers.specs.Tables.{table_parameters, TableCarried};

use extension::parameters;
use extension::parameters::ParameterMap;
use voting::table::Table;

// The parameters that a table asks a body to carry.
pub fn table_parameters(table: Table) -> ParameterMap
    ensures value { result ≡ table_parameters table }
    ensures carried { TableCarried table result }
{
    let mut m = parameters::no_parameters();
    for id in parameters::TABLE_IDS {
        m = m.with(id, table.get(id));
    }
    m
}
