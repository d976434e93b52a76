// What a page's records rest on.
ghost use Rattle.layout.specs.Held.{RestsOnHeld};

// Two pages that agree in their edit numbers, the valid header and the records it holds are read alike. Code that
// changes no such byte changes no saved record: its proof cites this.
pub fn rests_on_held()
    ensures { RestsOnHeld }
{}
