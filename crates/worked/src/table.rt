// The tables of worked cases.
ghost use Rattle.std.specs.Prelude.{◌≡◌, ◌+◌, length};
ghost use Rattle.worked.specs.Table.{EveryCase, EveryRow, rows, table};

// Every case of the table holds.
pub fn worked_cases()
    ensures { EveryCase }
{}

// How many worked cases there are, with the rows of changes to a fresh file, whose records lie where they say.
pub fn case_count() -> usize
    ensures places { EveryRow }
    ensures count { result ≡ length table + length rows }
{
    11
}
