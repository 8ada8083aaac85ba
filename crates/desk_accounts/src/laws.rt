// Laws of histories, each the contract of a function that does nothing.

ghost use Rattle.desk_accounts.specs.Laws.{BalancesAreTold, BalancesAreShown, GrantsAreShown, ChargesAreCovered, HoldsAreCovered};
ghost use Rattle.desk_accounts.specs.Laws.{DesksAreKept, GrantsAreFew, GrantsStayBelow, RefundsAreTold, GroupsAreNumbered};
ghost use Rattle.desk_accounts.specs.Laws.{RefundsAreOnce, RequestsAreChargedOnce};

/// A law: after every legal history each account has in the replayed state what the lines and the printed replies say: the
/// seconds of its accepted grants, less the charges and net of the refunds that replies record; none before its first grant.
pub fn balances_are_told()
    ensures { BalancesAreTold }
{}

/// A law: no account is charged more than it was granted and got back, so that a balance has nothing cut off.
pub fn charges_are_covered()
    ensures { ChargesAreCovered }
{}

/// A law: after every legal history what the open groups hold of an account is never more than its balance, so that what is available
/// is the balance less that, with nothing cut off.
pub fn holds_are_covered()
    ensures { HoldsAreCovered }
{}

/// A law: after every legal history the desk is settled and sound, and the accounts hold what its pending requests need.
pub fn desks_are_kept()
    ensures { DesksAreKept }
{}

/// A law: after every legal history all accounts together were granted at most 1,000,000,000 seconds for each change that the desk
/// accepted, and so, where those are at most 524,288, less than 10^15 seconds.
pub fn grants_are_few()
    ensures few { GrantsAreFew }
    ensures below { GrantsStayBelow }
{}

/// A law: each refund that a legal history replies is of a group whose number an earlier entry replied, with the ipp charge that is
/// refunded. Those numbers are 1, 2, 3 and so on, and no group is refunded twice.
pub fn refunds_are_told()
    ensures told { RefundsAreTold }
    ensures numbered { GroupsAreNumbered }
    ensures once { RefundsAreOnce }
{}

/// A law: no request is completed by two entries of a legal history, and so none is charged twice.
pub fn requests_are_charged_once()
    ensures { RequestsAreChargedOnce }
{}

/// A law: what is printed of balances in a legal history is what its lines and replies tell. A `balances` line is replied all
/// accounts with their balances and what is available of them, and a `grant` line the balance that its account has then.
pub fn balances_are_shown()
    ensures balances { BalancesAreShown }
    ensures grants { GrantsAreShown }
{}
