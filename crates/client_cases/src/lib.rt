// The client by example: sessions played message by message.
#![tactic(auto)]

#[cfg(test)]
mod holding;
#[cfg(test)]
mod sent;
#[cfg(test)]
mod session;
