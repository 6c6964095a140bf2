// The lines that the planning program prints.
ghost use Rattle.std.specs.Prelude.{◌*◌, ◌+◌, ◌≤◌, length};
ghost use Rattle.ring.specs.Plans.{fates_of};
ghost use Rattle.texts.specs.Internal.Writing.{Room, Wrote};
ghost use Rattle.plan_text.specs.Layout.{plan_line, part_word, counts_line, fate_ending, fate_line, fate_lines, plan_text, refused_line};

use planner::{Part, Summary};
use ring::Fate;
use texts::writing::Writer;

// The line of n, w and m.
#[tactic(auto, using(texts::proofs::WordLaws::labelled_short))]
fn put_plan_line(writer: &mut Writer<'_>, n: u16, w: u16, m: u16)
    requires { Room 23 writer.old }
    ensures { Wrote writer.old (plan_line n w m) writer.new }
{
    writer.labelled(b"plan ", n);
    writer.labelled(b" ", w);
    writer.labelled(b" ", m);
    writer.byte(b'\n');
}

// The part used.
fn put_part(writer: &mut Writer<'_>, part: Part)
    requires { Room 5 writer.old }
    ensures { Wrote writer.old (part_word part) writer.new }
{
    match part {
        Part::Chain => writer.bytes(b"chain"),
        Part::Pair => writer.bytes(b"pair"),
    }
}

// The line of the counts, the part used and the ceiling.
#[tactic(auto, using(texts::proofs::WordLaws::labelled_short))]
fn put_counts_line(writer: &mut Writer<'_>, counts: Summary)
    requires { Room 68 writer.old }
    ensures { Wrote writer.old (counts_line counts) writer.new }
{
    writer.labelled(b"chain ", counts.chain);
    writer.labelled(b" match ", counts.matched);
    writer.labelled(b" pair ", counts.paired);
    writer.bytes(b" used ");
    put_part(writer, counts.used);
    writer.labelled(b" ceiling ", counts.ceiling);
    writer.byte(b'\n');
}

// What becomes of a request, at the end of its line.
#[tactic(auto, using(texts::proofs::WordLaws::way_short))]
fn put_fate(writer: &mut Writer<'_>, fate: Fate)
    requires { Room 9 writer.old }
    ensures { Wrote writer.old (fate_ending fate) writer.new }
{
    match fate {
        Fate::Blocked => writer.bytes(b" B\n"),
        Fate::Served(way, colour) => {
            writer.way(way, colour);
            writer.byte(b'\n');
        }
    }
}

// The line of a request.
#[tactic(auto, using(texts::proofs::DecimalLaws::decimal_short))]
fn put_fate_line(writer: &mut Writer<'_>, i: u16, fate: Fate)
    requires { Room 14 writer.old }
    ensures { Wrote writer.old (fate_line i fate) writer.new }
{
    writer.number(i);
    put_fate(writer, fate);
}

// The lines of the requests, whose fate numbers the table's entries are.
fn put_fate_lines(writer: &mut Writer<'_>, table: &[u16])
    requires { (length table.now ≤ 512) × Room (14 * length table.now) writer.old }
    ensures { Wrote writer.old (fate_lines 0 (fates_of table.now)) writer.new }
{
    for (i, number) in table.iter().enumerate() {
        put_fate_line(writer, i as u16, Fate::from(*number));
    }
}

// All lines of a plan.
#[tactic(auto, using(crate::proofs::LayoutLaws::plan_line_short, crate::proofs::LayoutLaws::counts_line_short))]
pub fn put_plan(writer: &mut Writer<'_>, n: u16, w: u16, counts: Summary, table: &[u16])
    requires { (length table.now ≤ 512) × Room 8192 writer.old }
    ensures { Wrote writer.old (plan_text n w (length table.now) counts (fates_of table.now)) writer.new }
{
    put_plan_line(writer, n, w, table.len() as u16);
    put_counts_line(writer, counts);
    put_fate_lines(writer, table);
}

// The one line of a refusal.
#[tactic(auto, using(texts::proofs::WordLaws::labelled_short))]
pub fn put_refused(writer: &mut Writer<'_>, number: u16)
    requires { Room 14 writer.old }
    ensures { Wrote writer.old (refused_line number) writer.new }
{
    writer.labelled(b"refused ", number);
    writer.byte(b'\n');
}
