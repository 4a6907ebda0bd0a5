// Messages by example: what a head and the bytes behind it tell, and whole insides.

use crate::codec::Codec;
use crate::fault::Fault;
use crate::head::Head;
use crate::headed::Headed;
use crate::kind::Kind;
use crate::unwritten::Unwritten;
use message::to_client::{Reply, ToClient};
use message::to_server::{Request, ToServer};
use std::test::Fail;

fn from<M: Headed>(kind: Kind, channel: u16, rest: &[u8]) -> Option<M> {
    M::from_head(Head { kind, channel }, rest)
}

#[test]
fn heads(rt: HostRuntime) -> Result<(), Fail> {
    assert!(rt;
        matches!(
            &from(Kind::Run, 5, &[9]),
            Some(ToServer::For {
                channel: 5,
                request: Request::Run { command: 9 }
            })
        )
    );
    assert!(rt; matches!(&from(Kind::Tick, 0, &[]), Some(ToServer::Tick)));
    assert!(rt; from::<ToServer>(Kind::Tick, 1, &[]).is_none());
    assert!(rt; from::<ToServer>(Kind::Exit, 5, &[9]).is_none());
    assert!(rt;
        matches!(
            &from(Kind::Exit, 513, &[9]),
            Some(ToClient::Of {
                channel: 513,
                reply: Reply::Exit { status: 9 }
            })
        )
    );
    assert!(rt; from::<ToClient>(Kind::Exit, 5, &[9, 9]).is_none());
    Ok(())
}

#[test]
fn whole(rt: HostRuntime) -> Result<(), Fail> {
    let close = ToServer::For {
        channel: 258,
        request: Request::Close,
    };
    let mut out = [9; 4];
    assert_eq!(rt; Codec::write(&close, &mut out), Ok(3));
    assert_eq!(rt; out, [6, 1, 2, 9]);
    assert_eq!(rt; Codec::write(&close, &mut out[..2]), Err(Unwritten::NoRoom));
    assert!(rt;
        matches!(
            &Codec::read(&out[..3]),
            Ok(ToServer::For {
                channel: 258,
                request: Request::Close
            })
        )
    );
    let back: Result<ToClient, Fault> = Codec::read(&out[..3]);
    assert!(rt; matches!(&back, Err(Fault::Malformed)));
    Ok(())
}
