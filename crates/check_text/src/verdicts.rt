// The line that the checking program prints.
ghost use Rattle.std.specs.Prelude.{◌+◌, ◌≤◌, length};
ghost use Rattle.texts.specs.Internal.Writing.{Room, Wrote};
ghost use Rattle.check_text.specs.Verdict.{carried_text, served_line, refusal_line, verdict_line};

use ring::Refusal;
use ring::refusals::Carried;
use texts::writing::Writer;

// The values that a refusal carries, each after a space.
#[tactic(auto, using(texts::proofs::WordLaws::labelled_short))]
fn put_carried(writer: &mut Writer<'_>, carried: Carried)
    requires { Room 12 writer.old }
    ensures { Wrote writer.old (carried_text carried) writer.new }
{
    match carried {
        Carried::None => {}
        Carried::One(first) => writer.labelled(b" ", first),
        Carried::Two(first, second) => {
            writer.labelled(b" ", first);
            writer.labelled(b" ", second);
        }
    }
}

// The line of a refusal.
#[tactic(auto, using(texts::proofs::WordLaws::labelled_short, crate::proofs::VerdictLaws::carried_short))]
fn put_refusal(writer: &mut Writer<'_>, refusal: Refusal)
    requires { Room 32 writer.old }
    ensures { Wrote writer.old (refusal_line refusal) writer.new }
{
    writer.labelled(b"refused ", refusal.number());
    put_carried(writer, refusal.carried());
    writer.byte(b'\n');
}

// The line of a plan that passes.
#[tactic(auto, using(texts::proofs::WordLaws::labelled_short))]
fn put_served(writer: &mut Writer<'_>, served: u16)
    requires { Room 32 writer.old }
    ensures { Wrote writer.old (served_line served) writer.new }
{
    writer.labelled(b"served ", served);
    writer.byte(b'\n');
}

// The line of an answer.
pub fn put_verdict(writer: &mut Writer<'_>, answer: Result<u16, Refusal>)
    requires { Room 32 writer.old }
    ensures { Wrote writer.old (verdict_line answer) writer.new }
{
    match answer {
        Ok(served) => put_served(writer, served),
        Err(refusal) => put_refusal(writer, refusal),
    }
}
