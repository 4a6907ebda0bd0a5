// How many channels are held, and which numbers may be used.
use crate::sent::{next, of};
use client::refusal::{Refusal, Refused, Rejected};
use client::value::Client;
use message::fault::Fault;
use message::to_client::{Reply, ToClient};
use std::test::Fail;

fn start(c: &mut Client, channel: u32) -> Result<(), Refused> {
    let started = c.run(channel, 1);
    let _ = c.next_message();
    let _ = c.next_message();
    started
}

#[test]
fn sixteen_and_one(rt: HostRuntime) -> Result<(), Fail> {
    let mut c = Client::new(rt.alloc())?;
    for t in 0..16u32 {
        assert_eq!(rt; start(&mut c, t), Ok(()));
    }
    assert_eq!(rt; start(&mut c, 16), Err(Refused::By(Refusal::TooManyHeld)));
    assert_eq!(rt; u8::from(Refusal::TooManyHeld), 7);
    assert_eq!(rt; start(&mut c, 15), Err(Refused::By(Refusal::BadNumber)));
    assert_eq!(rt; u8::from(Refusal::BadNumber), 5);
    assert_eq!(rt; c.receive(of(9, Reply::Runs(false))), Ok(()));
    assert_eq!(rt; next(&mut c), None);
    assert_eq!(rt; start(&mut c, 16), Ok(()));
    assert_eq!(rt; c.input(9, &[1]), Err(Refused::By(Refusal::NotHeld)));
    assert_eq!(rt; u8::from(Refusal::NotHeld), 8);
    assert_eq!(rt; c.input(16, &[1]), Ok(()));
    Ok(())
}

#[test]
fn numbers(rt: HostRuntime) -> Result<(), Fail> {
    let mut c = Client::new(rt.alloc())?;
    assert_eq!(rt; start(&mut c, 0), Ok(()));
    assert_eq!(rt; start(&mut c, 0), Err(Refused::By(Refusal::BadNumber)));
    assert_eq!(rt; start(&mut c, 65536), Err(Refused::By(Refusal::BadNumber)));
    assert_eq!(rt; start(&mut c, 65535), Ok(()));
    assert_eq!(rt; start(&mut c, 65535), Err(Refused::By(Refusal::BadNumber)));
    assert_eq!(rt; c.eof(65536), Err(Refused::By(Refusal::NotHeld)));
    assert_eq!(rt;
        c.receive(of(65534, Reply::Runs(true))),
        Err(Rejected::For(Fault::NeverStarted))
    );
    assert_eq!(rt; u8::from(Fault::NeverStarted), 4);
    Ok(())
}
