// Bundles: grants that are tried together.
ghost use Rattle.std.specs.Prelude.{List, [], ◌∷◌, ◌++◌};
ghost use Rattle.book.specs.declared.grants.Line.{Line};
ghost use Rattle.bundles.specs.Internal.Bundles.{Bundled};

pub use book::Line;

// Room for 16 lines, and their number as the caller gives it.
#[derive(Clone, Copy)]
pub struct Bundle {
    pub count: usize,
    pub lines: [Line; 16],
}

impl Bundle {
    pub const LINES: usize = 16;

    // A bundle of no line.
    pub fn blank() -> Bundle
        ensures { Bundled result [] }
    {
        let line = Line {
            x: 0,
            y: 0,
            way: 0,
            colour: 0,
            crew: 0,
        };
        Bundle {
            count: 0,
            lines: [line; 16],
        }
    }

    // One line more behind the others; a line too many is counted and not kept.
    pub fn push(&mut self, line: Line)
        ensures { (lines : List Line) → Bundled self.old lines → Bundled self.new (lines ++ (line ∷ [])) }
    {
        if self.count < Self::LINES {
            self.lines[self.count] = line;
        }
        self.count = self.count.saturating_add(1);
    }
}
