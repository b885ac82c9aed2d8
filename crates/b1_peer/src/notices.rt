//! The notices that a destruction stages at its owner and at the peers that it visits.

ghost use Rattle.std.specs.Prelude.{◌≡◌, ◌≤◌, ◌<◌, ◌^◌, length, true};
ghost use Rattle.b1_step.specs.Ordered.{NewKey};
ghost use Rattle.b1_handles.specs.Handles.{needs_notice};
ghost use Rattle.b1_peer.specs.Destructions.{notice_key, all_own_noticed, OwnNoticesFit, notified, all_notified, any_needs, NoticesAreNew};

use b1_handles::HandleTable;
use b1_model::{Entry, Key, NodeRef};
use b1_peer_queue::Mailbox;
use b1_queue::QueueKind;

/// Stages the own notice of each doomed node, with its place in their list, and takes its release notice back. The clock
/// must be below 2^63.
pub fn stage_own<Q: QueueKind>(mail: &mut Mailbox<Q>, clock: u64, me: u32, doomed: &[u32])
    requires clock { clock < 2 ^ 63 }
    requires few { length doomed.now < 2 ^ 32 }
    requires fit { OwnNoticesFit clock me 0 doomed.now mail.old }
    ensures { mail.new ≡ all_own_noticed clock me 0 doomed.now mail.old }
{
    let mut index: u32 = 0;
    let mut left = doomed;
    while let [serial, rest @ ..] = left {
        mail.withdraw_release(*serial);
        let key = Key {
            stamp: clock + 1,
            origin: me,
            index,
        };
        mail.put_notice(
            key,
            Entry::OwnNotice {
                serial: *serial,
                index,
            },
        );
        index += 1;
        left = rest;
    }
}

/// Stages the notice of each doomed node of the peer `owner` that has a record without one, with its place in their list.
/// Whether there is one. The clock must be below 2^63.
pub fn stage_foreign<Q: QueueKind>(
    mail: &mut Mailbox<Q>,
    handles: &mut HandleTable,
    clock: u64,
    owner: u32,
    doomed: &[u32],
) -> bool
    requires clock { clock < 2 ^ 63 }
    requires few { length doomed.now ≤ 2 ^ 32 }
    requires new { NoticesAreNew clock owner 0 doomed.now (record {
      mail = mail.old;
      records = handles.old.records;
    }) }
    ensures staged { result ≡ any_needs owner doomed.now handles.old.records }
    ensures mail { mail.new ≡ (all_notified clock owner 0 doomed.now (record {
      mail = mail.old;
      records = handles.old.records;
    })).mail }
    ensures handles { handles.new
        ≡ record handles.old {
          records = (all_notified clock owner 0 doomed.now (record {
            mail = mail.old;
            records = handles.old.records;
          })).records;
        } }
{
    let mut staged = false;
    let mut index: u64 = 0;
    let mut left = doomed;
    while let [serial, rest @ ..] = left {
        let node = NodeRef {
            owner,
            serial: *serial,
        };
        if stage_one(mail, handles, clock, index as u32, node) {
            staged = true;
        }
        index += 1;
        left = rest;
    }
    staged
}

/// Stages the notice of one doomed node of another peer, where it has a record without one. Whether it has.
fn stage_one<Q: QueueKind>(
    mail: &mut Mailbox<Q>,
    handles: &mut HandleTable,
    clock: u64,
    index: u32,
    node: NodeRef,
) -> bool
    requires clock { clock < 2 ^ 63 }
    requires new { needs_notice node handles.old.records ≡ true
        → (0 < mail.old.spare) × NewKey (notice_key clock node.owner index) mail.old.queue }
    ensures needed { result ≡ needs_notice node handles.old.records }
    ensures notified { record { mail = mail.new; records = handles.new.records }
        ≡ notified clock index node (record { mail = mail.old; records = handles.old.records }) }
    ensures given { handles.new.given ≡ handles.old.given }
{
    let needed = handles.notify(node);
    if needed {
        let key = Key {
            stamp: clock + 1,
            origin: node.owner,
            index,
        };
        mail.put_notice(key, Entry::ForeignNotice { node, index });
    }
    needed
}
