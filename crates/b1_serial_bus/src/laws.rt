ghost use Rattle.std.specs.Prelude.{◌≡◌, ℕ, List, true};
ghost use Rattle.std.specs.Prelude.{Option as Maybe};
ghost use Rattle.b1_model.specs.declared.naming.Opening.{Opening};
ghost use Rattle.b1_model.specs.declared.commands.Command.{Command};
ghost use Rattle.b1_schedule.specs.Shortage.{Shortage};
ghost use Rattle.b1_serial_bus.specs.Serial.{is_over, moves};
ghost use Rattle.b1_serial_bus.specs.Report.{started, serial};

/// Every script ends or stalls on the serial bus. However many rounds and passes lead to an end or to a stall, it is this
/// one; and it depends on nothing but the script and the places where memory is wanting.
pub fn a_script_has_one_serial_end()
    ensures over { (o : Opening) (lists : List (List Command)) (m : Shortage)
        → is_over (serial o lists m).stage ≡ true }
    ensures one { (o : Opening) (lists : List (List Command)) (m : Shortage) (n : ℕ)
        → is_over (moves lists m n (started o)).stage ≡ true
        → moves lists m n (started o) ≡ serial o lists m }
    ensures same { (o : Opening) (lists : List (List Command)) (m w : Shortage)
        → ((p k : ℕ) (place : Maybe ℕ) → m p k place ≡ w p k place)
        → serial o lists m ≡ serial o lists w }
{}
