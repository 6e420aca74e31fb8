// The bags P, D and A of the parameters of a task's schemas (document 01, "Property rules"), in three tables of rows: in card order, one row
// a parameter.
ghost use Rattle.std.specs.Prelude.{List, [], ◌∷◌, ◌++◌, ◌≡◌, ℕ, ◌+◌, ◌*◌, ◌≤◌, ◌<◌, length, get_or, take, drop, replicate};
ghost use Rattle.laws.specs.Lists.{padded};
ghost use Rattle.model.specs.Transitions.{properties_from};
ghost use Rattle.card.specs.Represents.{arities_of, atoms_of, schema_of, schemas_of};
ghost use Rattle.properties.specs.Represented.{AritiesRight, AtomsRight, SchemaRight, SchemasRight, SchemasSmall, first_properties};
ghost use Rattle.properties.specs.Parameters.{parameters_in, bags_over, RoomForBags, ParameterTables};
ghost use Rattle.properties.specs.Entered.{RoomFrom, SchemaEntered};
ghost use Rattle.properties.specs.Tables.{rows_before};
ghost use Rattle.properties.specs.Tallies.{raised, tallied_rows, Talliable};

use crate::counts::enter_atoms;
use crate::numbered;
use card::{ArityList, AtomList, Schema, SchemaList};

// The bags of a schema's parameters over one of its lists of atoms, from the start of the table.
fn enter_list(
    table: &mut [u8],
    parameters: usize,
    atoms: AtomList,
    predicates: ArityList,
    firsts: [usize; 20],
)
    requires arities_right { AritiesRight predicates }
    requires atoms_right { AtomsRight (arities_of predicates) parameters atoms }
    requires firsts_value { firsts ≡ padded 20 0 (first_properties (arities_of predicates)) }
    requires parameters_in_bounds { 60 * parameters ≤ length table.old }
    ensures { table.new
        ≡ rows_before (bags_over (properties_from 0 (arities_of predicates)) (atoms_of (arities_of predicates) atoms) parameters) table.old }
{
    table[..60 * parameters].fill(0);
    enter_atoms(
        table,
        parameters,
        &atoms.atoms[..atoms.count],
        predicates,
        firsts,
    );
}

// The bags of a schema's parameters, in rows from the place `at` of the three tables on.
fn enter_schema(
    preconditions: &mut [u8],
    deletes: &mut [u8],
    adds: &mut [u8],
    at: usize,
    schema: Schema,
    predicates: ArityList,
    firsts: [usize; 20],
)
    requires arities_right { AritiesRight predicates }
    requires schema_right { SchemaRight (arities_of predicates) schema }
    requires firsts_value { firsts ≡ padded 20 0 (first_properties (arities_of predicates)) }
    requires room_from { RoomFrom at (60 * schema.parameters) preconditions.old deletes.old adds.old }
    ensures { SchemaEntered (arities_of predicates) (schema_of (arities_of predicates) schema) at preconditions.old deletes.old
        adds.old preconditions.new deletes.new adds.new }
{
    let parameters = schema.parameters;
    enter_list(
        &mut preconditions[at..],
        parameters,
        schema.preconditions,
        predicates,
        firsts,
    );
    enter_list(
        &mut deletes[at..],
        parameters,
        schema.deletes,
        predicates,
        firsts,
    );
    enter_list(&mut adds[at..], parameters, schema.adds, predicates, firsts);
}

// The bags of all parameters of a task's schemas, from the start of the three tables, and how many there are.
pub fn parameter_bags(
    predicates: ArityList,
    schemas: SchemaList,
    preconditions: &mut [u8],
    deletes: &mut [u8],
    adds: &mut [u8],
) -> usize
    requires arities_right { AritiesRight predicates }
    requires schemas_right { SchemasRight (arities_of predicates) schemas }
    requires room_for_bags { RoomForBags (parameters_in (schemas_of (arities_of predicates) schemas)) preconditions.old deletes.old adds.old }
    ensures { ParameterTables (properties_from 0 (arities_of predicates)) (schemas_of (arities_of predicates) schemas) result preconditions.old
        deletes.old adds.old preconditions.new deletes.new adds.new }
{
    let numbers = numbered(predicates);
    let firsts = numbers.firsts;
    let mut count: usize = 0;
    for i in 0..schemas.count {
        let schema = schemas.schemas[i];
        enter_schema(
            preconditions,
            deletes,
            adds,
            60 * count,
            schema,
            predicates,
            firsts,
        );
        count += schema.parameters;
    }
    count
}

// How many parameters the schemas of a task have together; the arities of its predicates play no part.
pub fn parameters_of(schemas: SchemaList) -> usize
    requires { SchemasSmall schemas }
    ensures { (arities : List ℕ) → result ≡ parameters_in (schemas_of arities schemas) }
{
    let mut parameters: usize = 0;
    for schema in &schemas.schemas[..schemas.count] {
        parameters += schema.parameters;
    }
    parameters
}
