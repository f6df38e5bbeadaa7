// Windows as flat numbers, start and length in turn, which is what the steps take.
ghost use Rattle.std.specs.Prelude.{◌≡◌, [], ◌∷◌, ◌++◌, ◌+◌, ◌≤◌, take};
ghost use Rattle.windows.specs.Flat.{flat_of};
ghost use Rattle.windows.specs.Table.{most, room};

use kit::limits::MOST_WINDOWS;
use memory::window::Window;

// The first `count` numbers of `flat` are in use: fixed memory and no heap, which is a rule of the project. It has room for
// one window more than a step allows, so that too many windows stay too many.
#[derive(Clone, Copy)]
pub struct Table {
    pub flat: [u32; 34],
    pub count: usize,
    ghost fits: { count ≤ room },
}

impl Table {
    // A table with no number in use.
    fn none() -> Table
        ensures { take result.count result.flat ≡ [] }
    {
        Table {
            flat: [0u32; 34],
            count: 0,
        }
    }

    // Start and length go after the numbers in use.
    fn add(self, window: Window) -> Table
        requires { self.count + 2 ≤ room }
        ensures two_more { result.count ≡ self.count + 2 }
        ensures holds { take result.count result.flat ≡ take self.count self.flat ++ (window.start ∷ window.length ∷ []) }
    {
        let count = self.count;
        let mut flat = self.flat;
        flat[count] = window.start;
        flat[count + 1] = window.length;
        Table {
            flat,
            count: count + 2,
        }
    }

    // The numbers in use.
    pub fn numbers(&self) -> &[u32]
        ensures { result.now ≡ take self.now.count self.now.flat }
    {
        &self.flat[..self.count]
    }
}

// The first windows, as many as there is room for.
pub fn table_of(windows: &[Window]) -> Table
    ensures { take result.count result.flat ≡ flat_of (take most windows.now) }
{
    let end = windows.len().min(MOST_WINDOWS + 1);
    let mut table = Table::none();
    for window in &windows[..end] {
        table = table.add(*window);
    }
    table
}
