// What holds of the windows of every cadence; these functions do nothing.

ghost use Rattle.request_times.specs.Laws.{WindowsAreSound, CentresAreCounted};

/// The windows of a cadence lie inside its start and end, none begins or ends before the one before it, none is shorter than
/// the request, and each centre below the end has its window, or that was too short.
pub fn windows_are_sound()
    ensures { WindowsAreSound }
{}

/// Where the period isn't 0, the centres that are counted are those below the end.
pub fn centres_are_counted()
    ensures { CentresAreCounted }
{}
