ghost use Rattle.std.specs.Prelude.{◌≡◌, ℕ, ◌+◌, ◌*◌, ◌<◌, ◌≤◌, ◌⊎◌, true, false, [], Some, IfNone, IfOk, IfSome, replicate, vec_len, vec_capacity};
ghost use Rattle.flex_base.specs.Limits.{is_lawful};
ghost use Rattle.flex_base.specs.Loaded.{image_fits};
ghost use Rattle.mem_lines.specs.Bank.{is_bank_count};
ghost use Rattle.access_record.specs.Rule.{occurrences};
ghost use Rattle.access_record.specs.Passes.{add_hart, new_pass};
ghost use Rattle.flex_base.specs.Forms.{HasForm};
ghost use Rattle.flex_base.specs.FlatMemory.{is_ram_access};
ghost use Rattle.flex_base.specs.Devices.{device_stop};
ghost use Rattle.flex_base.specs.Banks.{accesses_of};
ghost use Rattle.flex_base.specs.declared.event.What.TheVariants as What;
ghost use Rattle.access_record.specs.Buses.{ram_banks, place_in, events_of, access_entry, waits, Extends, HasLooked, waits_unwoken};
ghost use Rattle.access_record.specs.Histories.{done_at, history_after, IsAnsweredIn, Grows, IsUnwokenIn};
ghost use Rattle.mem_banks.specs.Kept.{IsReady, MayMake};
ghost use Rattle.mem_banks.specs.Origins.{run_of};
ghost use Rattle.mem_banks.specs.Plain.{numbers_below, new_slots, AreMade};
ghost use Rattle.mem_banks.specs.Locked.{HasBanks};
ghost use Rattle.mem_banks.specs.End.{logs_in, IsMemoryOf, IsFounderOf, AreHeld, passes_down};

use crate::at_bank::access_bank;
use crate::at_devices::{access_devices, wake_at};
use crate::end_memory::{EndMemory, Unsettled};
use crate::origin::Origin;
use crate::places::ram_address;
use crate::slots::share_at;
use access_record::{AccessRecord, BankPass, Bus, Entry, Founder, Pass};
use devices::Devices;
use flex_base::{Access, Engine, HartId, Image, Reply, Settings, Stop};
use mem_lines::Lines;
use std::alloc::{AllocError, Global};
use std::marker::Model;
use std::snapshot::Snapshot;

/// The bus of one thread, which takes no lock. It must be spent, by `dissolve`.
pub struct PlainBus {
    book: AccessRecord,
    lines: Vec<Lines>,
    devices: Devices,
    // The passes of the banks and, last, of the devices.
    slots: Vec<Option<BankPass>>,
    // Where they go when the bus is dissolved.
    room: Vec<BankPass>,
    origin: Origin,
    // The bank whose pass has seen all numbers so far, and the last of them.
    newest: usize,
    latest: Snapshot<Option<u64>>,
}

impl Model for PlainBus {
    ghost use Rattle.std.specs.Prelude.{◌≡◌, ◌≤◌, vec_len, vec_capacity};
    ghost use Rattle.access_record.specs.Buses.{ram_banks};
    ghost use Rattle.mem_banks.specs.Origins.{run_from};
    ghost use Rattle.mem_banks.specs.Plain.{Plain, plain_of, next_number, IsPlain, HasSeen};

    ghost Value = { Plain };

    ghost view = { λ s. plain_of (run_from s.book s.origin) s.lines.items s.devices s.slots.items s.newest s.latest.value };

    ghost invariant = { λ s. IsPlain (run_from s.book s.origin) s.lines.items s.devices s.slots.items
        × HasSeen (ram_banks (run_from s.book s.origin)) s.slots.items s.newest (next_number s.latest.value)
        × (vec_len s.room ≡ 0) × (s.book.limits.banks ≤ vec_capacity s.room) };
}

impl Bus for PlainBus {
    ghost run = { λ s. s.run };

    ghost history = { λ s. Some s.history };

    fn access(&mut self, pass: Pass, engine: Engine, acc: Access) -> (Pass, u64, Reply) {
        self.make(pass, engine, acc)
    }

    fn wake(&mut self, pass: Pass, engine: Engine) -> (Pass, Option<(u64, Reply)>) {
        self.make_pulse(pass, engine)
    }

    fn note(&mut self, pass: Pass, entry: Entry) -> (Pass, u64) {
        let pass = self.learn(pass);
        let (pass, number) = self.book.note_own(pass, entry);
        let pass = self.tell(pass, number);
        (pass, number)
    }
}

impl PlainBus {
    /// The bus of an image, settings and a console input, where RAM has so many banks: a power of two
    /// from 1 to 64. Nothing is made yet, and no hart is enrolled.
    ///
    /// The settings are lawful and the image fits their RAM. Together the harts make at most 262,144
    /// ends. Each hart's log has room for 24 events an end and 24 more. An error means that memory
    /// ran out.
    pub fn new(
        alloc: Global,
        image: &Image,
        settings: &Settings,
        banks: u8,
        input: Vec<u8>,
    ) -> Result<(PlainBus, Founder), AllocError>
        requires lawful { is_lawful settings.now ≡ true }
        requires fits { image_fits settings.now.ram image.now ≡ true }
        requires banks { is_bank_count banks ≡ true }
        requires few { settings.now.harts * settings.now.budget ≤ 262144 }
        ensures run { IfOk result (λ r. r.0.run ≡ run_of r.0.run.book image.now settings.now input.items) }
        ensures limits { IfOk result (λ r. r.0.run.book.limits
            ≡ record { harts = settings.now.harts; banks = banks + 1; room = 24 * settings.now.budget + 24 }) }
        ensures history { IfOk result (λ r. r.0.history ≡ record { least = 0; banks = replicate (banks + 1) [] }) }
        ensures founder { IfOk result (λ r. IsFounderOf r.0.run r.1) }
        ensures harts { IfOk result (λ r. r.1.harts ≡ []) }
    {
        let origin = Origin {
            image: Snapshot::of(image),
            settings: *settings,
            input: Snapshot::of(&input),
        };
        let lines = all_lines(alloc, image, settings, banks)?;
        let devices = Devices::new(alloc, settings, input)?;
        let all = banks + 1;
        let slots = Vec::with_capacity(alloc, all as usize);
        let Ok(slots) = slots else {
            return Err(AllocError);
        };
        let Ok(room) = Vec::with_capacity(alloc, all as usize) else {
            slots.destroy_empty();
            return Err(AllocError);
        };
        let events = 24 * settings.budget + 24;
        let Ok((book, founder)) = AccessRecord::new(alloc, settings.harts, all, events) else {
            slots.destroy_empty();
            room.destroy_empty();
            return Err(AllocError);
        };
        let (founder, slots) = enrol_banks(&book, founder, slots, all);
        let bus = PlainBus {
            book,
            lines,
            devices,
            slots,
            room,
            origin,
            newest: 0,
            latest: Snapshot::of(&None),
        };
        Ok((bus, founder))
    }

    /// Enrols a hart of the settings that isn't enrolled yet. Its pass has an empty log.
    pub fn enrol(&mut self, founder: Founder, hart: HartId) -> (Founder, Pass)
        requires founder { founder.id ≡ self.old.run.book.id }
        requires in_range { hart.0 < self.old.run.book.limits.harts }
        requires not_yet { occurrences hart.0 founder.harts ≡ 0 }
        ensures founder { result.0 ≡ add_hart founder hart }
        ensures pass { result.1 ≡ new_pass founder.id hart }
        ensures same { self.new ≡ self.old }
    {
        self.book.enrol_hart(founder, hart)
    }

    // The pass learns all numbers so far, so that its next one is above them.
    fn learn(&mut self, pass: Pass) -> Pass
        requires book { pass.id ≡ self.old.run.book.id }
        ensures pass { result ≡ record pass { seen = result.seen } }
        ensures seen { self.old.history.least ≤ result.seen }
        ensures history { self.new.history ≡ self.old.history }
        ensures same { (self.new.run ≡ self.old.run) × (self.new.newest ≡ self.old.newest) }
    {
        share_at(&self.book, &mut self.slots[self.newest], pass)
    }

    // The bus learns the number that the pass was given last.
    fn tell(&mut self, pass: Pass, number: u64) -> Pass
        requires book { pass.id ≡ self.old.run.book.id }
        requires seen { number + 1 ≤ pass.seen }
        ensures pass { result ≡ record pass { seen = result.seen } }
        ensures history { self.new.history ≡ record self.old.history { least = number + 1 } }
        ensures same { self.new.run ≡ self.old.run }
    {
        let pass = share_at(&self.book, &mut self.slots[self.newest], pass);
        self.latest = Snapshot::of(&Some(number));
        pass
    }

    // Makes an access, whether the hart's story asks it or not.
    pub(crate) fn make(&mut self, pass: Pass, engine: Engine, acc: Access) -> (Pass, u64, Reply)
        requires may { MayMake self.old.run pass acc }
        ensures noted { Extends pass result.0 (access_entry engine acc result.2) (Some (place_in self.old.run acc)) result.1 }
        ensures history { Grows self.old.run self.old.history pass.hart.0 (What.Acc acc result.2) result.1 (Some self.new.history) }
        ensures form { HasForm acc result.2 }
        ensures same { self.new.run ≡ self.old.run }
    {
        match ram_address(&acc) {
            Some(address) => {
                let bank = (address / 64 % self.lines.len() as u64) as usize;
                let pass = if bank == self.newest {
                    pass
                } else {
                    self.learn(pass)
                };
                self.make_at(bank, pass, engine, acc)
            }
            None => {
                let pass = self.learn(pass);
                let (pass, number, reply) = self.make_at_devices(pass, engine, acc);
                let pass = self.tell(pass, number);
                (pass, number, reply)
            }
        }
    }

    // Makes an access of this bank. Its pass, or that of the hart, has seen all numbers so far.
    fn make_at(
        &mut self,
        bank: usize,
        pass: Pass,
        engine: Engine,
        acc: Access,
    ) -> (Pass, u64, Reply)
        requires may { MayMake self.old.run pass acc }
        requires ram { is_ram_access acc ≡ true }
        requires here { place_in self.old.run acc ≡ bank }
        requires below { bank < ram_banks self.old.run }
        requires seen { (bank ≡ self.old.newest) ⊎ (self.old.history.least ≤ pass.seen) }
        ensures noted { Extends pass result.0 (access_entry engine acc result.2) (Some (place_in self.old.run acc)) result.1 }
        ensures history { Grows self.old.run self.old.history pass.hart.0 (What.Acc acc result.2) result.1 (Some self.new.history) }
        ensures form { HasForm acc result.2 }
        ensures same { self.new.run ≡ self.old.run }
    {
        let lines = &mut self.lines[bank];
        let slot = &mut self.slots[bank];
        let (pass, number, reply) = access_bank(&self.book, lines, slot, pass, engine, acc);
        self.newest = bank;
        self.latest = Snapshot::of(&Some(number));
        (pass, number, reply)
    }

    // Makes an access of the devices.
    fn make_at_devices(&mut self, pass: Pass, engine: Engine, acc: Access) -> (Pass, u64, Reply)
        requires may { MayMake self.old.run pass acc }
        requires device { is_ram_access acc ≡ false }
        ensures noted { Extends pass result.0 (access_entry engine acc result.2) (Some (place_in self.old.run acc)) result.1 }
        ensures seen { pass.seen ≤ result.1 }
        ensures after { result.0.seen ≡ result.1 + 1 }
        ensures answered { IsAnsweredIn self.old.run self.old.history pass.hart.0 (What.Acc acc result.2) }
        ensures banks { self.new.history.banks ≡ (history_after self.old.run self.old.history pass.hart.0 (What.Acc acc result.2) result.1).banks }
        ensures form { HasForm acc result.2 }
        ensures same { (self.new.run ≡ self.old.run) × (self.new.history.least ≡ self.old.history.least) }
    {
        let slot = &mut self.slots[self.lines.len()];
        access_devices(&self.book, &mut self.devices, slot, pass, engine, acc)
    }

    // Makes the pulse of a hart that waits, where it is woken.
    pub(crate) fn make_pulse(&mut self, pass: Pass, engine: Engine) -> (Pass, Option<(u64, Reply)>)
        requires ready { IsReady self.old.run pass }
        requires waits { waits pass ≡ true }
        ensures woken { IfSome result.1 (λ r. Extends pass result.0 (access_entry engine (Access.Pulse false) r.1)
            (Some (place_in self.old.run (Access.Pulse false))) r.0) }
        ensures history { IfSome result.1 (λ r. Grows self.old.run self.old.history pass.hart.0 (What.Acc (Access.Pulse false) r.1) r.0
            (Some self.new.history)) }
        ensures form { IfSome result.1 (λ r. HasForm (Access.Pulse false) r.1) }
        ensures value { IfSome result.1 (λ r. r.1.value ≡ 0) }
        ensures looked { IfNone result.1 (HasLooked pass result.0) }
        ensures unwoken { IfNone result.1 (waits_unwoken self.old.run result.0 ≡ true) }
        ensures in_history { IfNone result.1 (IsUnwokenIn self.old.run (Some self.old.history) pass.hart.0) }
        ensures stays { IfNone result.1 (self.new.history ≡ self.old.history) }
        ensures same { self.new.run ≡ self.old.run }
    {
        let pass = self.learn(pass);
        match self.wake_by_devices(pass, engine) {
            (pass, Some((number, reply))) => {
                let pass = self.tell(pass, number);
                (pass, Some((number, reply)))
            }
            (pass, None) => (pass, None),
        }
    }

    // Looks at the devices and, where the hart is woken, makes its pulse.
    fn wake_by_devices(&mut self, pass: Pass, engine: Engine) -> (Pass, Option<(u64, Reply)>)
        requires ready { IsReady self.old.run pass }
        requires waits { waits pass ≡ true }
        ensures woken { IfSome result.1 (λ r. Extends pass result.0 (access_entry engine (Access.Pulse false) r.1)
            (Some (place_in self.old.run (Access.Pulse false))) r.0) }
        ensures seen { IfSome result.1 (λ r. pass.seen ≤ r.0) }
        ensures after { IfSome result.1 (λ r. result.0.seen ≡ r.0 + 1) }
        ensures form { IfSome result.1 (λ r. HasForm (Access.Pulse false) r.1) }
        ensures value { IfSome result.1 (λ r. r.1.value ≡ 0) }
        ensures looked { IfNone result.1 (HasLooked pass result.0) }
        ensures unwoken { IfNone result.1 (waits_unwoken self.old.run result.0 ≡ true) }
        ensures answered { IfSome result.1 (λ r. IsAnsweredIn self.old.run self.old.history pass.hart.0 (What.Acc (Access.Pulse false) r.1)) }
        ensures banks { IfSome result.1 (λ r. self.new.history.banks
            ≡ (history_after self.old.run self.old.history pass.hart.0 (What.Acc (Access.Pulse false) r.1) r.0).banks) }
        ensures in_history { IfNone result.1 (IsUnwokenIn self.old.run (Some self.old.history) pass.hart.0) }
        ensures stays { IfNone result.1 (self.new.history.banks ≡ self.old.history.banks) }
        ensures same { (self.new.run ≡ self.old.run) × (self.new.history.least ≡ self.old.history.least) }
    {
        let slot = &mut self.slots[self.lines.len()];
        wake_at(&self.book, &mut self.devices, slot, pass, engine)
    }

    /// Why the run stops, once it is to stop.
    pub fn stop(&self) -> Option<Stop>
        ensures { result ≡ device_stop self.now.run.setup.harts (done_at self.now.history (ram_banks self.now.run)) }
    {
        self.devices.stop()
    }

    // How many banks there are.
    pub(crate) fn banks(&self) -> usize
        ensures { result ≡ ram_banks self.now.run }
    {
        self.lines.len()
    }

    /// Hands back the memory, with the record and the passes of its banks.
    pub fn dissolve(self) -> EndMemory
        ensures memory { IsMemoryOf self.run result }
        ensures banks { HasBanks self.run }
        ensures history { (bank : ℕ) → bank < self.run.book.limits.banks
            → accesses_of (events_of (logs_in result bank)) ≡ done_at self.history bank }
    {
        let PlainBus {
            book,
            lines,
            devices,
            slots,
            room,
            origin: _,
            newest: _,
            latest: _,
        } = self;
        let passes = take_passes(slots, room);
        EndMemory {
            lines,
            devices,
            unsettled: Some(Unsettled { book, passes }),
        }
    }
}

// All banks of an image, in rising order.
fn all_lines(
    alloc: Global,
    image: &Image,
    settings: &Settings,
    banks: u8,
) -> Result<Vec<Lines>, AllocError>
    requires lawful { is_lawful settings.now ≡ true }
    requires fits { image_fits settings.now.ram image.now ≡ true }
    requires banks { is_bank_count banks ≡ true }
    ensures all { IfOk result (λ lines. vec_len lines ≡ banks) }
    ensures each { IfOk result (λ lines. AreMade image.now settings.now banks lines.items) }
{
    let mut lines = Vec::new(alloc);
    for bank in 0..banks {
        lines.push(Lines::new(alloc, image, settings, banks, bank)?)?;
    }
    Ok(lines)
}

// Each bank gets its pass, and the devices as the last one.
fn enrol_banks(
    book: &AccessRecord,
    mut founder: Founder,
    mut slots: Vec<Option<BankPass>>,
    all: u8,
) -> (Founder, Vec<Option<BankPass>>)
    requires book { (founder.id ≡ book.now.id) × (book.now.limits.banks ≡ all) }
    requires none { founder.banks ≡ [] }
    requires room { (vec_len slots ≡ 0) × (all ≤ vec_capacity slots) }
    ensures founder { (result.0.id ≡ founder.id) × (result.0.harts ≡ founder.harts) }
    ensures banks { result.0.banks ≡ numbers_below all }
    ensures slots { result.1.items ≡ new_slots book.now all }
{
    for bank in 0..all {
        let (next, pass) = book.enrol_bank(founder, bank);
        founder = next;
        slots.push_reserved(Some(pass));
    }
    (founder, slots)
}

// The passes of all slots, the last one first.
fn take_passes(mut slots: Vec<Option<BankPass>>, mut room: Vec<BankPass>) -> Vec<BankPass>
    requires held { AreHeld slots.items }
    requires room { (vec_len room ≡ 0) × (vec_len slots ≤ vec_capacity room) }
    ensures { result.items ≡ passes_down slots.items (vec_len slots) }
{
    while let Some(slot) = slots.pop() {
        let Some(pass) = slot else { unreachable!() };
        room.push_reserved(pass);
    }
    slots.destroy_empty();
    room
}
