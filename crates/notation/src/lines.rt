// Lists with a line for each item.
ghost use Rattle.std.specs.Prelude.{ℕ, List, Some};
ghost use Rattle.std.specs.Fmt.{WritesOnOk};
ghost use Rattle.notation.specs.Lists.{numbered};

use std::fmt;
use std::fmt::Formatter;

// What is written of each item of a list, with the item's number.
pub(crate) trait Lines<T> {
    ghost line: { Self → ℕ → T → List ℕ };

    fn write_line<W: fmt::Write>(
        &self,
        f: &mut Formatter<W>,
        number: usize,
        item: &T,
    ) -> fmt::Result
        ensures { WritesOnOk W.write_str_gives f.old result (line self.now number item.now) f.new };
}

// Writes the lines of all items, in their order.
pub(crate) fn write_lines<T, L: Lines<T>, W: fmt::Write>(
    f: &mut Formatter<W>,
    lines: &L,
    items: &[T],
) -> fmt::Result
    ensures { let text = numbered (L.Lines.line lines.now) items.now in
        WritesOnOk W.write_str_gives f.old result text f.new }
{
    for (number, item) in items.iter().enumerate() {
        lines.write_line(f, number, item)?;
    }
    Ok(())
}

// The items of a list, and what is written of each: shown, a line for each item.
#[derive(Clone, Copy)]
pub(crate) struct Listed<'a, T, L> {
    pub(crate) lines: L,
    pub(crate) items: &'a [T],
}

impl<T, L: Lines<T>> fmt::Display for Listed<'_, T, L> {
    ghost output = { λ l. Some (numbered (L.Lines.line l.lines) l.items.now) };

    fn fmt<W: fmt::Write>(&self, f: &mut Formatter<W>) -> fmt::Result {
        write_lines(f, &self.lines, self.items)
    }
}
