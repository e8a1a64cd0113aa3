// Tests of what a host answers, command by command, at moments that the test chooses.
ghost use Rattle.sealed_core.specs.Step.{IsCheckedCommand, command_view};

use crate::creations::{DEADLINE, NOW, SECRET, flat};
use arrayvec::ArrayVec;
use sealed_core::{
    Answered, BidBody, BodyFault, Command, Creation, FieldName, Host, Refusal, Reply, What, answer,
    apply, can_apply, key_of, reserve,
};
use std::alloc::Global;
use std::process::Abort;

// What a member, or the organiser by number 0, asks of instance 1.
#[derive(Clone, Copy)]
enum Asked {
    Bid { turn: u32, values: [u32; 2] },
    Close,
    Division,
}

// The body of a bid of two values.
fn body(turn: u32, values: [u32; 2]) -> BidBody {
    let [first, second] = values;
    let mut numbers = ArrayVec::new();
    numbers.push(first);
    numbers.push(second);
    BidBody {
        turn: Some(turn),
        values: Some(numbers),
        place: None,
    }
}

// The command of a member, or of the organiser as member 0, under their key.
fn command(member: u8, asked: Asked) -> Command
    ensures { IsCheckedCommand (command_view result) }
{
    let key = Some(key_of(&SECRET, 1, member));
    match asked {
        Asked::Bid { turn, values } => Command::Bid {
            id: 1,
            key,
            body: Ok(body(turn, values)),
        },
        Asked::Close => Command::Close { id: 1, key },
        Asked::Division => Command::Publish {
            id: 1,
            key,
            what: What::Division,
        },
    }
}

// The reply to a command, and whether there was an event, which is applied.
fn told(rt: &impl Abort, host: &mut Host, moment: u64, command: Command) -> (Reply, bool)
    requires { IsCheckedCommand (command_view command) }
{
    let Answered { event, reply } = answer(host, moment, command);
    match event {
        Some(event) => {
            assert!(rt; can_apply(host, &event));
            assert!(rt; reserve(host).is_ok());
            apply(host, event);
            (reply, true)
        }
        None => (reply, false),
    }
}

// What is replied to a creation, and whether there is an event.
fn create(rt: &impl Abort, host: &mut Host, creation: Creation) -> (Reply, bool) {
    assert!(rt; creation.is_checked());
    told(rt, host, NOW, Command::Create { body: Ok(creation) })
}

// A host with one flat for two.
fn opened(rt: &impl Abort, alloc: Global) -> Host {
    let mut host = Host::new(alloc, SECRET);
    assert_eq!(rt;
        create(rt, &mut host, flat(rt, "flat-2026-000001")),
        (Reply::Created { id: 1 }, true)
    );
    host
}

// A moment, who asks what, the reply, and whether there is an event.
type Turn = (u64, u8, Asked, Reply, bool);

// The host answers these in turn.
fn assert_answers(rt: &impl Abort, host: &mut Host, turns: &[Turn]) {
    for (moment, member, asked, reply, has_event) in turns {
        let (answered, event) = told(rt, host, *moment, command(*member, *asked));
        assert!(rt;
            answered == *reply && event == *has_event,
            "{member} at {moment}"
        );
    }
}

const BID: Asked = Asked::Bid {
    turn: 1,
    values: [600, 400],
};

// The reply that refuses for this cause.
fn refused(refusal: Refusal) -> Reply {
    Reply::Refused(refusal)
}

const DIVISION: Reply = Reply::Publish {
    id: 1,
    what: What::Division,
};

// Both the deadline and the organiser can close an instance, and only the first of them does.
#[test]
fn an_instance_is_closed_once(rt: HostRuntime) {
    let mut host = opened(&rt, rt.alloc());
    let by_deadline: [Turn; 9] = [
        (NOW, 1, BID, Reply::Kept { turn: 1 }, true),
        (NOW, 0, Asked::Close, refused(Refusal::NotAll), false),
        (DEADLINE, 1, Asked::Close, refused(Refusal::Role), false),
        (
            DEADLINE - 1,
            1,
            Asked::Division,
            refused(Refusal::NotClosed),
            false,
        ),
        (DEADLINE, 1, Asked::Division, DIVISION, true),
        (NOW, 2, BID, refused(Refusal::Closed), false),
        (
            NOW,
            2,
            Asked::Bid {
                turn: 7,
                values: [1, 1],
            },
            refused(Refusal::BadField {
                name: FieldName::Values,
            }),
            false,
        ),
        (NOW, 0, Asked::Close, refused(Refusal::Closed), false),
        (NOW, 0, Asked::Division, DIVISION, false),
    ];
    assert_answers(&rt, &mut host, &by_deadline);
    assert_eq!(rt; host.moment(), DEADLINE);
    let mut host = opened(&rt, rt.alloc());
    let by_organiser: [Turn; 4] = [
        (NOW, 1, BID, Reply::Kept { turn: 1 }, true),
        (NOW, 2, BID, Reply::Kept { turn: 1 }, true),
        (NOW, 0, Asked::Close, Reply::Closed, true),
        (NOW, 2, Asked::Division, DIVISION, false),
    ];
    assert_answers(&rt, &mut host, &by_organiser);
    let mut host = opened(&rt, rt.alloc());
    let late: [Turn; 1] = [(DEADLINE, 0, Asked::Close, refused(Refusal::Closed), true)];
    assert_answers(&rt, &mut host, &late);
}

// A request after the deadline closes the instance, whatever else is wrong with it.
#[test]
fn a_late_request_closes_before_its_body_is_refused(rt: HostRuntime) {
    let mut host = opened(&rt, rt.alloc());
    let late = Command::Withdraw {
        id: 1,
        key: Some(key_of(&SECRET, 1, 1)),
        body: Err(BodyFault::Json),
    };
    assert_eq!(rt;
        told(&rt, &mut host, DEADLINE, late),
        (Reply::Refused(Refusal::BadJson), true)
    );
}
