// What is asked before a command is obeyed.
ghost use Rattle.std.specs.Prelude.{◌≡◌, ◌==◌, position, ℕ, ◌<◌, ◌≤◌, ◌⊎◌, true, false, List, MatchResult};
ghost use Rattle.model.specs.Client.{Enter, Finish};
ghost use Rattle.client.specs.View.{view_of};
ghost use Rattle.client.specs.Stand.{busy};
ghost use Rattle.client.specs.Contract.{Stopped};
ghost use Rattle.client.specs.Checks.{IsAt, IsNowhere, MayEnter};

use crate::refusal::{Refusal, Refused};
use crate::value::Client;

impl Client {
    // Commands are taken while nothing is owed.
    pub(crate) fn ready(&self) -> Result<(), Refused>
        ensures { MatchResult result (λ _. busy (view_of self.now) ≡ false) (λ e. (e ≡ Refused.Busy) × (busy (view_of self.now) ≡ true)) }
    {
        if self.is_busy() {
            return Err(Refused::Busy);
        }
        Ok(())
    }

    pub(crate) fn connected(&self) -> Result<(), Refusal>
        ensures { MatchResult result (λ _. (view_of self.now).up ≡ true) (λ f. (f ≡ Refusal.Down) × ((view_of self.now).up ≡ false)) }
    {
        if self.up { Ok(()) } else { Err(Refusal::Down) }
    }

    // The number, if a channel may start with it.
    pub(crate) fn unused(&self, channel: u32) -> Result<u16, Refusal>
        ensures { MatchResult result (λ t. (t ≡ channel) × (self.now.next ≤ channel) × (channel ≤ 65535)) (λ f. (f ≡ Refusal.BadNumber) × ((channel < self.now.next) ⊎ (65535 < channel))) }
    {
        match u16::try_from(channel) {
            Ok(number) if self.next <= channel => Ok(number),
            _ => Err(Refusal::BadNumber),
        }
    }

    pub(crate) fn find(&self, number: u32) -> Option<usize>
        ensures { result ≡ position (λ h. h.channel.number == number) self.now.channels.held.items }
    {
        self.channels
            .held
            .iter()
            .position(|held| u32::from(held.channel.number) == number)
    }

    // Where the channel is held.
    pub(crate) fn place(&self, channel: u32) -> Result<usize, Refusal>
        ensures { MatchResult result (IsAt channel (view_of self.now).kepts) (λ f. (f ≡ Refusal.NotHeld) × IsNowhere channel (view_of self.now).kepts) }
    {
        self.find(channel).ok_or(Refusal::NotHeld)
    }

    // Where a channel is held for which input may be entered, or its end.
    pub(crate) fn open(&self, channel: u32) -> Result<usize, Refused>
        ensures { MatchResult result (MayEnter channel (view_of self.now)) (λ e. Stopped (Finish channel) self.now e self.now × ((bytes : List ℕ) → Stopped (Enter channel bytes) self.now e self.now)) }
    {
        self.ready()?;
        let i = self.place(channel)?;
        self.connected()?;
        if self.channels.held[i].channel.eof {
            return Err(Refusal::AfterEof.into());
        }
        Ok(i)
    }
}
