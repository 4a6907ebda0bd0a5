// One channel from login to close, and what comes too early or too late.
use crate::sent::{Sent, chunk, next, of};
use client::refusal::{Refusal, Refused, Rejected};
use client::value::Client;
use message::fault::Fault;
use message::to_client::{Reply, ToClient};
use std::process::Abort;
use std::test::Fail;

// A client with channel 5 running.
fn running(rt: &(impl Abort + AllocGlobal)) -> Result<Client, Fail> {
    let mut c = Client::new(rt.alloc())?;
    assert_eq!(rt; c.run(5, 1), Ok(()));
    assert_eq!(rt; next(&mut c), Some(Sent::Run(5)));
    assert_eq!(rt; next(&mut c), None);
    assert_eq!(rt; c.receive(of(5, Reply::Runs(true))), Ok(()));
    assert_eq!(rt; next(&mut c), None);
    Ok(c)
}

#[test]
fn login(rt: HostRuntime) -> Result<(), Fail> {
    let mut c = Client::new(rt.alloc())?;
    assert_eq!(rt; c.login(7, [0; 32]), Ok(()));
    assert_eq!(rt; c.login(7, [0; 32]), Err(Refused::Busy));
    assert_eq!(rt; c.receive(ToClient::Tock), Err(Rejected::Busy));
    assert_eq!(rt; next(&mut c), Some(Sent::Login(7)));
    assert_eq!(rt; next(&mut c), None);
    assert!(rt; !c.is_accepted());
    assert_eq!(rt; c.receive(ToClient::Accepted(true)), Ok(()));
    assert_eq!(rt; c.receive(ToClient::Accepted(false)), Ok(()));
    assert!(rt; c.is_accepted());
    Ok(())
}

// 1,500 bytes of room: parts of 1,024 and 476; the rest waits for more room, and eof behind it.
#[test]
fn input_in_parts(rt: HostRuntime) -> Result<(), Fail> {
    let mut c = running(&rt)?;
    assert_eq!(rt; c.receive(of(5, Reply::InputCredit(1500))), Ok(()));
    assert_eq!(rt; next(&mut c), None);
    assert_eq!(rt; c.input(5, &[65; 2000]), Ok(()));
    assert_eq!(rt; next(&mut c), Some(Sent::Input(1024)));
    assert_eq!(rt; c.eof(5), Err(Refused::Busy));
    assert_eq!(rt; next(&mut c), Some(Sent::Input(476)));
    assert_eq!(rt; next(&mut c), None);
    assert_eq!(rt; c.eof(5), Ok(()));
    assert_eq!(rt; next(&mut c), None);
    assert_eq!(rt; c.eof(5), Err(Refused::By(Refusal::AfterEof)));
    assert_eq!(rt; c.input(5, &[66; 1]), Err(Refused::By(Refusal::AfterEof)));
    assert_eq!(rt; u8::from(Refusal::AfterEof), 8);
    assert_eq!(rt; c.receive(of(5, Reply::InputCredit(500))), Ok(()));
    assert_eq!(rt; next(&mut c), Some(Sent::Input(500)));
    assert_eq!(rt; next(&mut c), Some(Sent::Eof(5)));
    assert_eq!(rt; next(&mut c), None);
    Ok(())
}

// 16,384 bytes wait, and one more is refused.
#[test]
fn most_waiting(rt: HostRuntime) -> Result<(), Fail> {
    let mut c = running(&rt)?;
    assert_eq!(rt; c.input(5, &[65; 16384]), Ok(()));
    assert_eq!(rt; next(&mut c), None);
    assert_eq!(rt; c.input(5, &[65; 1]), Err(Refused::By(Refusal::TooMuch)));
    assert_eq!(rt; u8::from(Refusal::TooMuch), 8);
    assert_eq!(rt; c.input(5, &[]), Ok(()));
    Ok(())
}

// Output is taken in two goes; the exit with all taken closes the channel, and what comes later is dropped.
#[test]
fn taken_to_the_end(rt: HostRuntime) -> Result<(), Fail> {
    let mut c = running(&rt)?;
    let output = chunk(b"hello");
    assert_eq!(rt; c.receive(of(5, Reply::Output(output))), Ok(()));
    assert_eq!(rt; next(&mut c), None);
    assert_eq!(rt; c.receive(of(5, Reply::Exit { status: 3 })), Ok(()));
    assert_eq!(rt; next(&mut c), None);
    let mut out = [0; 4];
    assert_eq!(rt; c.take(5, &mut out), Ok(4));
    assert!(rt; out[0] == b'h' && out[3] == b'l');
    assert_eq!(rt; next(&mut c), Some(Sent::Credit(4)));
    assert_eq!(rt; next(&mut c), None);
    assert_eq!(rt; c.take(5, &mut out), Ok(1));
    assert!(rt; out[0] == b'o' && out[3] == b'l');
    assert_eq!(rt; next(&mut c), Some(Sent::Credit(1)));
    assert_eq!(rt; next(&mut c), Some(Sent::Close(5)));
    assert_eq!(rt; next(&mut c), None);
    assert_eq!(rt; c.take(5, &mut out), Err(Refused::By(Refusal::NotHeld)));
    assert_eq!(rt; c.receive(of(5, Reply::InputCredit(1))), Ok(()));
    assert!(rt; c.is_up());
    Ok(())
}

// More than the window, and a reply that the channel's state rules out, are faults; after one only taking goes on.
#[test]
fn faults(rt: HostRuntime) -> Result<(), Fail> {
    let mut c = running(&rt)?;
    let output = chunk(&[1; 1024]);
    for _ in 0..8 {
        assert_eq!(rt; c.receive(of(5, Reply::Output(output))), Ok(()));
        assert_eq!(rt; next(&mut c), None);
    }
    assert_eq!(rt;
        c.receive(of(5, Reply::Output(output))),
        Err(Rejected::For(Fault::BeyondWindow))
    );
    assert_eq!(rt; u8::from(Fault::BeyondWindow), 4);
    assert!(rt; !c.is_up());
    assert_eq!(rt; c.receive(ToClient::Tock), Err(Rejected::Down));
    assert_eq!(rt; c.input(5, &[1]), Err(Refused::By(Refusal::Down)));
    assert_eq!(rt; c.login(1, [0; 32]), Err(Refused::By(Refusal::Down)));
    assert_eq!(rt; u8::from(Refusal::Down), 8);
    let mut out = [0; 9000];
    assert_eq!(rt; c.take(5, &mut out), Ok(8192));
    assert_eq!(rt; next(&mut c), None);
    Ok(())
}

#[test]
fn out_of_turn(rt: HostRuntime) -> Result<(), Fail> {
    let mut c = running(&rt)?;
    assert_eq!(rt;
        c.receive(of(5, Reply::Runs(true))),
        Err(Rejected::For(Fault::OutOfTurn))
    );
    assert_eq!(rt; u8::from(Fault::OutOfTurn), 3);
    let mut d = running(&rt)?;
    assert_eq!(rt;
        d.receive(of(6, Reply::Exit { status: 0 })),
        Err(Rejected::For(Fault::NeverStarted))
    );
    assert!(rt; !d.is_up());
    Ok(())
}

#[test]
fn cut_short(rt: HostRuntime) -> Result<(), Fail> {
    let mut c = running(&rt)?;
    assert_eq!(rt; c.run(6, 1), Ok(()));
    assert_eq!(rt; c.cut(), Err(Refused::Busy));
    assert_eq!(rt; next(&mut c), Some(Sent::Run(6)));
    assert_eq!(rt; next(&mut c), None);
    assert_eq!(rt; c.cut(), Ok(()));
    assert_eq!(rt; c.run(7, 1), Err(Refused::By(Refusal::Down)));
    assert_eq!(rt; c.eof(5), Err(Refused::By(Refusal::Down)));
    Ok(())
}
