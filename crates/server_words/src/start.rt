//! The line of a server that begins to serve.
ghost use Rattle.std.specs.Prelude.{◌≡◌, Some};
ghost use Rattle.server_words.specs.Texts.{role_text, start_text};

use express_words::Role;
use server_settings::ServerSettings;
use std::fmt;

/// A server that begins to serve, with what its log holds.
#[derive(Clone, Copy)]
pub struct Start<'a> {
    pub settings: &'a ServerSettings,
    /// The log's bytes.
    pub bytes: u64,
    /// The log's records.
    pub records: u64,
}

fn role_text(role: Role) -> &'static str
    ensures { result.now ≡ role_text role }
{
    match role {
        Role::Leader => "leader",
        Role::Helper => "helper",
    }
}

impl fmt::Display for Start<'_> {
    ghost output = { λ start. Some (start_text start) };

    fn fmt<W: fmt::Write>(&self, f: &mut fmt::Formatter<W>) -> fmt::Result {
        let role = role_text(self.settings.role);
        let doors = &self.settings.doors;
        let (clients, link) = (doors.clients.as_str(), doors.link.as_str());
        let status = match &doors.status {
            Some(status) => status.as_str(),
            None => "none",
        };
        write!(
            f,
            "started as {role}, clients {clients}, link {link}, status {status}, log {} bytes, {} records",
            self.bytes, self.records
        )
    }
}
