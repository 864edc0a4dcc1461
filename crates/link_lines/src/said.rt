//! What a line says.

use domain_base::Mac;

/// What a line asks for.
#[derive(Clone, Copy)]
pub enum LinkSaid {
    /// Nothing: it is a line of the header, or passed over.
    Nothing,
    /// That the seed is drawn; it is due until it was.
    Draw,
    /// That the end begins: the header is whole.
    Begin,
    /// That the row of that station is put.
    Row(Mac),
    /// That it is revoked.
    Revoke(Mac),
    /// That the key of that station is asked for, for that R1 key holder.
    Ask(Mac, Mac),
    /// That the question of that number is to be open no longer.
    Forget(u64),
    /// That the end takes the datagrams of its link.
    Turn,
}
