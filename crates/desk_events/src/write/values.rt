// The items of a reply's lists.

ghost use Rattle.desk_events.specs.Replied.{refund_data, balance_data, member_state_data};

use crate::reply::{AccountBalance, GroupRefund, MemberState};
use crate::write::words::{AccountWord, StateWord};
use plan_json::{Json, object};
use std::alloc::AllocError;

impl Json for GroupRefund {
    ghost value = { refund_data };

    ghost levels = { 1 };

    fn write(&self, out: &mut Vec<u8>) -> Result<(), AllocError> {
        (self.group.0, self.seconds).write(out)
    }
}

impl Json for AccountBalance {
    ghost value = { balance_data };

    ghost levels = { 1 };

    fn write(&self, out: &mut Vec<u8>) -> Result<(), AllocError> {
        object!(
            "account": AccountWord(self.key.account),
            "available": self.available,
            "balance": self.balance,
            "instrument_type": &self.key.instrument,
            "proposal": &self.key.proposal,
        )
        .write(out)
    }
}

impl Json for MemberState {
    ghost value = { member_state_data };

    ghost levels = { 1 };

    fn write(&self, out: &mut Vec<u8>) -> Result<(), AllocError> {
        object!(
            "request": self.request.0,
            "state": StateWord(self.state),
        )
        .write(out)
    }
}
