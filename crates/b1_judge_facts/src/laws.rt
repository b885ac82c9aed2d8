ghost use Rattle.b1_model.specs.declared.records.Record.{Record};
ghost use Rattle.b1_judge_facts.specs.Facts.{Rises};
ghost use Rattle.b1_judge_facts.specs.Orders.{HasEachStamp, HasStampsAlone, Ascends, KeepsEachList};

/// Where each peer's stamps rise, the bus order has each stamped call and no other, ascends strictly, and has one
/// peer's calls as that peer's list has them.
pub fn order_has_the_stamped_calls()
    ensures complete { (r : Record) → Rises r → HasEachStamp r }
    ensures sound { (r : Record) → Rises r → HasStampsAlone r }
    ensures ascends { (r : Record) → Rises r → Ascends r }
    ensures restricted { (r : Record) → Rises r → KeepsEachList r }
{}
