// What a desk owes, message by message.
ghost use Rattle.std.specs.Prelude.{◌≡◌, None};
ghost use Rattle.desk.specs.Sight.{view_of, Hands};

use crate::{Desk, Notice};
use message::to_client::{Reply, ToClient};
use server_channel::WINDOW;

impl<S: Drop> Desk<S> {
    // The next message that is owed: what is told first, then channel by channel what goes by itself.
    pub fn next_message(&mut self) -> Option<ToClient>
        ensures { Hands (view_of self.old) result (view_of self.new) }
    {
        let Some(notice) = self.notice.take() else {
            return self.next_reply();
        };
        Some(match notice {
            Notice::Logged(accepted) => ToClient::Accepted(accepted),
            Notice::Refused(channel) => ToClient::Of {
                channel,
                reply: Reply::Runs(false),
            },
            Notice::Started(channel) => {
                self.notice = Some(Notice::Freed(channel, WINDOW as u32));
                ToClient::Of {
                    channel,
                    reply: Reply::Runs(true),
                }
            }
            Notice::Freed(channel, more) => ToClient::Of {
                channel,
                reply: Reply::InputCredit(more),
            },
        })
    }

    fn next_reply(&mut self) -> Option<ToClient>
        requires { self.old.notice ≡ None }
        ensures { Hands (view_of self.old) result (view_of self.new) }
    {
        if !self.up {
            return None;
        }
        let i = self.first_due()?;
        let due = &mut self.channels.held[i];
        let channel = due.number();
        // Kept: what is first due has a next message, which a `?` would not say.
        let Some(reply) = due.next() else {
            return unreachable();
        };
        Some(ToClient::Of { channel, reply })
    }
}
