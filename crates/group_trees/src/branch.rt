// The kinds of nodes that have children.

ghost use Rattle.std.specs.Prelude.{◌≡◌};
ghost use Rattle.plan_json.specs.declared.member.Member.TheVariants as key;
ghost use Rattle.plan_json.specs.Object.{member_of};
ghost use Rattle.plan_json.specs.Reading.{result_and_then};
ghost use Rattle.plan_json.specs.Shown.{members_of};
ghost use Rattle.group_trees.specs.Trees.{seen, all_seen};
ghost use Rattle.group_trees.specs.Reading.{branch_of, branch_in, grown};

use crate::tree::{Children, Tree};
use plan_base::Op;
use plan_json::{Doc, JsonFault, Member};

/// How the children of a node belong together.
#[derive(Clone, Copy)]
pub(crate) enum Branch {
    Many,
    OneOf,
    And,
}

fn branch_of(member: Member, op: Op) -> Result<Branch, JsonFault>
    ensures { result ≡ branch_of member op }
{
    match op {
        Op::Single => Err(JsonFault::OutOfRange { member }),
        Op::Many => Ok(Branch::Many),
        Op::OneOf => Ok(Branch::OneOf),
        Op::And => Ok(Branch::And),
    }
}

/// The kind, where an operator was read.
fn branch_after(member: Member, read: Result<Op, JsonFault>) -> Result<Branch, JsonFault>
    ensures { result ≡ result_and_then (branch_of member) read }
{
    match read {
        Ok(op) => branch_of(member, op),
        Err(fault) => Err(fault),
    }
}

/// The kind that the member `operator` names.
pub(crate) fn read_branch(doc: &Doc) -> Result<Branch, JsonFault>
    ensures { result ≡ member_of branch_in (members_of doc.now) key.Operator }
{
    branch_after(Member::Operator, doc.operator(Member::Operator))
}

/// The node of a kind over children.
pub(crate) fn grown(branch: Branch, children: Children) -> Tree
    ensures { seen result ≡ grown branch (all_seen children.items) }
{
    match branch {
        Branch::Many => Tree::Many(children),
        Branch::OneOf => Tree::OneOf(children),
        Branch::And => Tree::And(children),
    }
}
