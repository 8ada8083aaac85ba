// Rounds, and the points that workers pass.

mod gates;
mod rounds;
