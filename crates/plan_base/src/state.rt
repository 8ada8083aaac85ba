// States of requests and groups.

ghost use Rattle.std.specs.Prelude.{◌≡◌};
ghost use Rattle.plan_base.specs.States.{is_pending, is_completed, is_window_expired, is_canceled, is_in};

/// How far a request has come, and by its requests how far a group has: the states of the Las Cumbres Observatory
/// observation portal.
#[derive(Clone, Copy)]
pub enum RequestState {
    /// `PENDING`: it may still be observed.
    Pending,
    /// `COMPLETED`: it was observed well enough.
    Completed,
    /// `WINDOW_EXPIRED`: its windows have passed, or those of another member of its `AND`.
    WindowExpired,
    /// `CANCELED`: it was withdrawn, or another member of its `ONEOF` was completed.
    Canceled,
}

impl RequestState {
    /// Whether it is `PENDING`.
    pub fn is_pending(self) -> bool
        ensures { result ≡ is_pending self }
    {
        match self {
            RequestState::Pending => true,
            RequestState::Completed | RequestState::WindowExpired | RequestState::Canceled => false,
        }
    }

    /// Whether it is `COMPLETED`.
    pub fn is_completed(self) -> bool
        ensures { result ≡ is_completed self }
    {
        match self {
            RequestState::Completed => true,
            RequestState::Pending | RequestState::WindowExpired | RequestState::Canceled => false,
        }
    }

    /// Whether it is `WINDOW_EXPIRED`.
    fn is_window_expired(self) -> bool
        ensures { result ≡ is_window_expired self }
    {
        match self {
            RequestState::WindowExpired => true,
            RequestState::Pending | RequestState::Completed | RequestState::Canceled => false,
        }
    }

    /// Whether it is `CANCELED`.
    fn is_canceled(self) -> bool
        ensures { result ≡ is_canceled self }
    {
        match self {
            RequestState::Canceled => true,
            RequestState::Pending | RequestState::Completed | RequestState::WindowExpired => false,
        }
    }

    /// Whether it is this state.
    pub fn is(self, state: RequestState) -> bool
        ensures { result ≡ is_in state self }
    {
        match state {
            RequestState::Pending => self.is_pending(),
            RequestState::Completed => self.is_completed(),
            RequestState::WindowExpired => self.is_window_expired(),
            RequestState::Canceled => self.is_canceled(),
        }
    }
}
