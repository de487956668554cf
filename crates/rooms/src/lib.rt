// Small rooms worked through, over the definitions that the contracts cite.
#![tactic(auto)]

ghost use Rattle.std.specs.Prelude.{◌≡◌, length};
ghost use Rattle.rooms.specs.Telling.{TellsRight};
ghost use Rattle.rooms.specs.Table.{table, TableHolds};

// How many lists of calls are worked through. What is worked out is right for every ledger and call, and it gives each entry.
pub fn rooms_worked() -> usize
    ensures many { result ≡ length table }
    ensures right { TellsRight }
    ensures table { TableHolds }
{
    11
}
