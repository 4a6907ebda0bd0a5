// Commands of the user.
ghost use Rattle.std.specs.Prelude.{◌≡◌, ◌≤◌, length};
ghost use Rattle.model.specs.Client.{LogIn, Start, Enter, Finish, Take, output_credit};
ghost use Rattle.client.specs.View.{pending_of};
ghost use Rattle.client.specs.Contract.{Obeyed, Taken};

use crate::refusal::{Refusal, Refused};
use crate::value::{Client, Pending};
use client_channel::held::Held;

// What taking so many bytes sends.
fn credit(channel: u16, count: usize) -> Option<Pending>
    requires { count ≤ 8192 }
    ensures { pending_of result ≡ output_credit channel count }
{
    if count == 0 {
        return None;
    }
    let count = count as u32;
    Some(Pending::Credit { channel, count })
}

impl Client {
    pub fn login(&mut self, user: u8, proof: [u8; 32]) -> Result<(), Refused>
        ensures { Obeyed (LogIn user proof) self.old result self.new }
    {
        self.ready()?;
        self.connected()?;
        self.pending = Some(Pending::Login { user, proof });
        Ok(())
    }

    // Starts a channel that runs the command.
    pub fn run(&mut self, channel: u32, command: u8) -> Result<(), Refused>
        ensures { Obeyed (Start channel command) self.old result self.new }
    {
        self.ready()?;
        let number = self.unused(channel)?;
        if self.channels.is_full() {
            return Err(Refusal::TooManyHeld.into());
        }
        self.connected()?;
        self.channels.start(|memory| Held::start(memory, number));
        self.used.insert(number);
        self.next = channel + 1;
        self.pending = Some(Pending::Run {
            channel: number,
            command,
        });
        Ok(())
    }

    // Input for a channel; it waits here until the server has room for it.
    pub fn input(&mut self, channel: u32, bytes: &[u8]) -> Result<(), Refused>
        ensures { Obeyed (Enter channel bytes.now) self.old result self.new }
    {
        let i = self.open(channel)?;
        if bytes.len() > self.channels.held[i].buffers.input.room() {
            return Err(Refusal::TooMuch.into());
        }
        let held = &mut self.channels.held[i];
        held.buffers.input.append(bytes);
        self.turn = Some(i);
        Ok(())
    }

    // No more input for a channel.
    pub fn eof(&mut self, channel: u32) -> Result<(), Refused>
        ensures { Obeyed (Finish channel) self.old result self.new }
    {
        let i = self.open(channel)?;
        let held = &mut self.channels.held[i];
        held.channel.eof = true;
        self.turn = Some(i);
        Ok(())
    }

    // Takes output of a channel, as much as there is and `out` has place for.
    pub fn take(&mut self, channel: u32, out: &mut [u8]) -> Result<usize, Refused>
        ensures obeyed { Obeyed (Take channel (length out.old)) self.old result self.new }
        ensures taken { Taken channel self.old out.old result out.new }
    {
        self.ready()?;
        let i = self.place(channel)?;
        let held = &mut self.channels.held[i];
        let number = held.channel.number;
        let count = held.buffers.output.take(out);
        if self.up {
            self.pending = credit(number, count);
            self.turn = Some(i);
        }
        Ok(count)
    }
}
