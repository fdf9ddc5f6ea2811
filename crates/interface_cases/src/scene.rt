//! The two ends of a script, and its playing.

use crate::ends::End;
use crate::steps::{Answer, Call, Step};
use crate::values::{DESCRIPTOR, FIRST};
use ptl_types::{Event, Handle, Message, Outcome, PutArgs, TriggeredOp};
use std::alloc::Global;
use std::process::Abort;

/// What every script begins with: rank 0 has portal table index 0 without a queue, and rank 1 a descriptor over its region.
const SETTING: &[Step] = &[
    Step::Here(Call::PtAlloc(0, None), Answer::Done),
    Step::There(Call::MdBind(DESCRIPTOR), Answer::Made(0)),
];

/// The interfaces of ranks 0 and 1, and the message that is under way.
struct Scene {
    here: End,
    there: End,
    wire: Option<Message>,
}

// Written out, so that letting one go is one call: docs/DECISIONS.md, "Large types have a drop of their own".
impl Drop for Scene {
    fn drop(self) {
        let Scene {
            here: _,
            there: _,
            wire: _,
        } = self;
    }
}

/// Plays what these functions give, each between two interfaces of its own. A function gives a constant list and does nothing else, since
/// a list that is made when a test runs makes its proof longer; and one test plays all of a module, since each test has a proof of its own.
macro_rules! plays {
    ($rt:expr; $($scripts:ident),*) => {
        $( $crate::scene::play($rt, stringify!($scripts), $scripts()); )*
    };
}

pub(crate) use plays;

/// Where a step stands: in what is played, in which of its scripts, and where there, both counted from 0.
#[derive(Clone, Copy)]
struct Place {
    name: &'static str,
    script: usize,
    step: usize,
}

/// Plays scripts one after another, between two interfaces of 16 zero bytes. A failure names the script and the step.
pub fn play<R: Abort + Alloc<A = Global>>(rt: &R, name: &'static str, scripts: &[&[Step]]) {
    let mut scene = Scene::open(rt, &[0; 16], &[0; 16]);
    scene.script(rt, name, 0, SETTING);
    scene.scripts(rt, name, scripts);
}

/// Plays a script between two interfaces over regions of these bytes, with nothing made in them.
pub fn play_between<R: Abort + Alloc<A = Global>>(
    rt: &R,
    here: &[u8],
    there: &[u8],
    script: &[Step],
) {
    let mut scene = Scene::open(rt, here, there);
    scene.script(rt, "between", 0, script);
}

/// Makes a call and compares its answer.
fn answers_so<R: Abort + Alloc<A = Global>>(
    rt: &R,
    at: Place,
    end: &mut End,
    wire: &mut Option<Message>,
    call: Call,
    want: Answer,
) {
    let answer = end.ask(rt, wire, call);
    answers(rt, at, answer, end.real(want));
}

/// Makes a call that is refused: all that the interface tells is as it was.
fn refuses<R: Abort + Alloc<A = Global>>(
    rt: &R,
    at: Place,
    end: &mut End,
    wire: &mut Option<Message>,
    call: Call,
    want: Answer,
) {
    let before = end.seen();
    answers_so(rt, at, end, wire, call, want);
    changed_nothing(rt, at, end.seen() == before);
}

/// Makes a call, and compares what the interface tells before and after it where it is to be refused.
fn check<R: Abort + Alloc<A = Global>>(
    rt: &R,
    at: Place,
    end: &mut End,
    wire: &mut Option<Message>,
    call: Call,
    want: Answer,
) {
    if matches!(want, Answer::Refused(_)) {
        refuses(rt, at, end, wire, call, want);
    } else {
        answers_so(rt, at, end, wire, call, want);
    }
}

fn answers(rt: &impl Abort, at: Place, answer: Answer, want: Answer) {
    assert_eq!(rt;
        answer,
        want,
        "{}: script {}, step {}",
        at.name, at.script, at.step
    );
}

fn changed_nothing(rt: &impl Abort, at: Place, stays: bool) {
    assert!(rt;
        stays,
        "a refused call changed something: {}: script {}, step {}",
        at.name, at.script, at.step
    );
}

/// The region has these bytes.
fn holds(rt: &impl Abort, at: Place, end: &End, bytes: &[u8]) {
    assert_eq!(rt;
        end.memory(),
        bytes,
        "{}: script {}, step {}",
        at.name,
        at.script,
        at.step
    );
}

impl Scene {
    fn open<R: Abort + Alloc<A = Global>>(rt: &R, here: &[u8], there: &[u8]) -> Scene {
        Scene {
            here: End::open(rt, 0, here),
            there: End::open(rt, 1, there),
            wire: None,
        }
    }

    fn scripts<R: Abort + Alloc<A = Global>>(
        &mut self,
        rt: &R,
        name: &'static str,
        scripts: &[&[Step]],
    ) {
        for (number, script) in scripts.iter().enumerate() {
            self.script(rt, name, number, script);
        }
    }

    fn script<R: Abort + Alloc<A = Global>>(
        &mut self,
        rt: &R,
        name: &'static str,
        script: usize,
        steps: &[Step],
    ) {
        for (step, made) in steps.iter().enumerate() {
            self.step(rt, Place { name, script, step }, *made);
        }
    }

    fn step<R: Abort + Alloc<A = Global>>(&mut self, rt: &R, at: Place, step: Step) {
        match step {
            Step::Here(call, want) => self.here(rt, at, call, want),
            Step::There(call, want) => self.there(rt, at, call, want),
            Step::HereHolds(bytes) => holds(rt, at, &self.here, bytes),
            Step::ThereHolds(bytes) => holds(rt, at, &self.there, bytes),
            Step::HereTells(eq, events) => self.tells(rt, at, eq, events),
            Step::Comes(args, bytes, outcome) => self.comes(rt, at, args, bytes, outcome),
        }
    }

    fn here<R: Abort + Alloc<A = Global>>(&mut self, rt: &R, at: Place, call: Call, want: Answer) {
        check(rt, at, &mut self.here, &mut self.wire, call, want);
    }

    fn there<R: Abort + Alloc<A = Global>>(&mut self, rt: &R, at: Place, call: Call, want: Answer) {
        check(rt, at, &mut self.there, &mut self.wire, call, want);
    }

    fn tells<R: Abort + Alloc<A = Global>>(
        &mut self,
        rt: &R,
        at: Place,
        eq: Handle,
        events: &[Event],
    ) {
        for event in events {
            self.here(rt, at, Call::EqGet(eq), Answer::Got(*event));
        }
        self.here(rt, at, Call::EqGet(eq), Answer::Empty);
    }

    fn comes<R: Abort + Alloc<A = Global>>(
        &mut self,
        rt: &R,
        at: Place,
        args: PutArgs,
        bytes: &'static [u8],
        outcome: Outcome,
    ) {
        let put = TriggeredOp::Put(PutArgs {
            md: FIRST,
            length: bytes.len() as u64,
            ..args
        });
        self.there(rt, at, Call::WriteMemory(0, bytes), Answer::Done);
        self.there(rt, at, Call::Start(put), Answer::Sent);
        self.here(rt, at, Call::Deliver, Answer::Became(outcome));
    }
}
