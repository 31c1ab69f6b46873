//! Streams of no table, stored beside a database: those of the pool, of the summary, and of users.

ghost use Rattle.std.specs.Prelude.{◌≡◌, IfOk, OnErr, OnOk, false, length, true};
ghost use Rattle.msi_container_format.specs.Names.{is_name_length};
ghost use Rattle.msi_base.specs.Results.{OnlyMemory};
ghost use Rattle.msi_database_storage.specs.Streams.{has_stream_at, stream_at, with_stream, with_stream_or_none};
ghost use Rattle.msi_database_storage.specs.Streams.{without_stream};
ghost use Rattle.msi_database.specs.Others.{IsOther, with_streams};

use crate::database::Database;
use msi_base::errors::Error;
use msi_container_format::contents::Bytes;
use msi_container_format::name::Name;
use msi_container_format::parts::put_back;

fn know_length(name: &Name)
    ensures { is_name_length (length name.now) ≡ true }
{
    name.units();
}

impl Database {
    /// Stores a stream under a name that is no table's, and returns the bytes of the one that was there. Replacing one
    /// takes no memory.
    ///
    /// # Errors
    /// Fails with `OutOfMemory`, and only if there was none; then nothing has changed.
    pub fn replace_stream(&mut self, name: Name, bytes: Bytes) -> Result<Option<Bytes>, Error>
        requires { IsOther self.old.database name }
        ensures ok { OnOk result (self.new ≡ with_streams (with_stream name bytes) self.old) }
        ensures held { IfOk result (λ held. held ≡ stream_at name self.old.streams) }
        ensures there { OnOk result (has_stream_at name self.new.streams ≡ true) }
        ensures same { OnErr result (self.new ≡ self.old) }
        ensures absent { OnErr result (has_stream_at name self.old.streams ≡ false) }
        ensures kind { OnlyMemory result }
    {
        know_length(&name);
        Ok(self.streams.replace(name, bytes)?)
    }

    /// Puts back what `replace_stream` returned: these bytes, or no stream. A stream of that name has to exist, so it
    /// takes no memory.
    pub fn put_back_stream(&mut self, name: &Name, bytes: Option<Bytes>)
        requires other { IsOther self.old.database name.now }
        requires there { has_stream_at name.now self.old.streams ≡ true }
        ensures { self.new ≡ with_streams (with_stream_or_none name.now bytes) self.old }
    {
        know_length(name);
        put_back(&mut self.streams, name, bytes);
    }

    /// Takes out the stream of a name that is no table's, if there is one, and returns its bytes. It takes no memory.
    pub fn remove_stream(&mut self, name: &Name) -> Option<Bytes>
        requires { IsOther self.old.database name.now }
        ensures held { result ≡ stream_at name.now self.old.streams }
        ensures gone { self.new ≡ with_streams (without_stream name.now) self.old }
    {
        know_length(name);
        self.streams.remove(name)
    }
}
