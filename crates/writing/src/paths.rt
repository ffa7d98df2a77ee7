// Our own path: what our Via entry tells (01 Writing).
ghost use Rattle.std.specs.Prelude.{◌≡◌};
ghost use Rattle.writing.specs.Adding.{path_rule};

// Who we are on the way of a call.
#[derive(Clone, Copy)]
pub struct Path<'a> {
    pub host: &'a [u8],
    pub destination: &'a [u8],
    pub organization: &'a [u8],
}

impl<'a> Path<'a> {
    // Whether it keeps the Via rules.
    pub fn is_kept(self) -> bool
        ensures { result ≡ path_rule self.entry.host.now self.entry.destination.now self.entry.organization.now }
    {
        rules::is_host(self.host)
            && rules::is_destination(self.destination)
            && rules::is_organization(self.organization)
    }
}
