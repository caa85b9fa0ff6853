// The paper's specimens as the promises of functions that do nothing: the starred ones in one table, lines and records; the large grids.
ghost use Rattle.demands.specs.Specimens.{Specimens};
ghost use Rattle.demands.specs.Grids.{Grids};

// The lines, and the records, refused whatever the cell and the value.
pub fn starred_specimens()
    ensures { Specimens }
{}

// What the volumes of the large grids need, and that an opening takes them or refuses 9.
pub fn large_grids()
    ensures { Grids }
{}
