//! What has been read of a script, and what a good line adds to it.
ghost use Rattle.std.specs.Prelude.{◌≡◌, ◌-◌, [], OnOk, IfOk, map, slice_set, slice_get, false};
ghost use Rattle.std.specs.List.{fold};
ghost use Rattle.std.specs.Option.{unwrap_or};
ghost use Rattle.rsct_packet.specs.Mask.{node_numbers};
ghost use Rattle.world_model.specs.Reading.{first_settings, objects_of, nothing_read, plain_address, settled, settled_if, with_address, with_line, with_call, votes_said, left_after, with_client, with_text, lacks_begin, at_end, taken};
ghost use Rattle.script_reader.specs.Said.{said_seen, votes_seen};
ghost use Rattle.script_reader.specs.Reading.{reading_seen, GivesScript};

use crate::calls::caller;
use crate::clients::Clients;
use crate::faults::ScriptFault;
use crate::said::{ClientVotes, Said};
use node_state::{CallLine, Config, Mode};
use rsct_packet::{List, Mask, NODES, NoMemory};
use std::alloc::Global;
use world_model::{Aim, Event, Line, LineWhy, Lines, Script};

/// What has been read, for what, and which settings; clients, lines and texts in their order. `left`: how many
/// objects no client has taken. `texts`: the bytes of those lines that are calls. `has_call`: the last line is a
/// call whose bytes are not kept yet.
#[derive(Drop)]
pub struct ReadSoFar {
    pub aim: Aim,
    pub config: Config,
    pub has_mode: bool,
    pub has_adapter: bool,
    pub has_hb: bool,
    pub has_port: bool,
    pub has_domain: bool,
    pub begun: bool,
    pub left: u32,
    pub clients: Clients,
    pub lines: Lines,
    pub texts: List<List<u8>>,
    pub has_call: bool,
}

/// The settings of a script that has none.
fn first_settings() -> Config
    ensures { result ≡ first_settings }
{
    Config {
        mode: Mode::Rings,
        nodes: Mask::empty(),
        addr: [[0; 32]; 4],
        every: 1,
        misses: 4,
        port: 12347,
        level_from: [0; 32],
        domain: 1,
    }
}

/// The address of a node where no line gives one: 10.1.0.n, or 0 where the node is none of the domain.
#[tactic(auto, unfolding(world_model::specs::Reading::plain_address))]
fn plain_address(config: &Config, node: u8) -> u32
    ensures { result ≡ plain_address config.now node }
{
    if config.nodes.has(node) {
        167_837_696 + u32::from(node)
    } else {
        0
    }
}

/// Sets the number for a node, if there is a place for it.
fn set_number(numbers: &mut [u32], node: u8, number: u32)
    ensures { numbers.new ≡ slice_set numbers.old (node - 1) number }
{
    let place = usize::from(node).saturating_sub(1);
    if place < numbers.len() {
        numbers[place] = number;
    }
}

/// Sets the plain addresses of these nodes.
#[tactic(auto, using(std::proofs::lemmas::List::Sums::fold_more))]
fn set_plain_addresses(addresses: &mut [u32], config: &Config, nodes: &[u8])
    ensures { addresses.new ≡ fold (λ a n. slice_set a (n - 1) (plain_address config.now n))
        addresses.old nodes.now }
{
    for n in nodes {
        set_number(addresses, *n, plain_address(config, *n));
    }
}

/// The plain addresses of all nodes.
fn plain_addresses(config: &Config) -> [u32; 32]
    ensures { result ≡ map (plain_address config.now) node_numbers }
{
    let mut addresses = [0; 32];
    set_plain_addresses(&mut addresses, config, &NODES);
    addresses
}

/// The settings, where each node has its plain address on network 1.
#[tactic(auto, unfolding(world_model::specs::Reading::settled_if))]
fn with_plain_addresses(config: &Config) -> Config
    ensures { result ≡ settled_if config.now false }
{
    let mut settled = *config;
    settled.addr[0] = plain_addresses(config);
    settled
}

/// Sets the address of a node on a network, if there is a place for it.
fn set_address(addr: &mut [[u32; 32]], node: u8, network: u8, address: u32)
    ensures { addr.new ≡ slice_set addr.old (network - 1)
        (slice_set (unwrap_or (slice_get addr.old (network - 1)) []) (node - 1) address) }
{
    let row = usize::from(network).saturating_sub(1);
    if row < addr.len() {
        let mut addresses = addr[row];
        set_number(&mut addresses, node, address);
        addr[row] = addresses;
    }
}

/// The objects that give votes.
#[tactic(auto, unfolding(world_model::specs::Reading::objects_of))]
fn objects_of(aim: Aim) -> u32
    ensures { result ≡ objects_of aim }
{
    match aim {
        Aim::Serves(_, objects) => objects,
        _ => 0,
    }
}

/// How many objects are left after a line of a client of this node.
#[tactic(auto, unfolding(world_model::specs::Reading::left_after))]
fn left_after(aim: Aim, node: u8, votes: &ClientVotes, left: u32) -> u32
    ensures { result ≡ left_after aim node (votes_seen votes.now) left }
{
    match (aim, votes) {
        (Aim::Serves(me, _), ClientVotes::Boxed) if node == me => left.saturating_sub(1),
        _ => left,
    }
}

/// Do the settings of a node end before their `begin`?
#[tactic(auto, unfolding(world_model::specs::Reading::lacks_begin))]
fn lacks_begin(aim: Aim, begun: bool) -> bool
    ensures { result ≡ lacks_begin aim begun }
{
    match aim {
        Aim::Plays => false,
        _ => !begun,
    }
}

impl ReadSoFar {
    /// Nothing.
    #[tactic(auto, unfolding(world_model::specs::Reading::nothing_read))]
    pub fn new(alloc: Global, aim: Aim) -> ReadSoFar
        ensures { reading_seen result ≡ nothing_read aim }
    {
        ReadSoFar {
            aim,
            config: first_settings(),
            has_mode: false,
            has_adapter: false,
            has_hb: false,
            has_port: false,
            has_domain: false,
            begun: false,
            left: objects_of(aim),
            clients: Clients::new(alloc),
            lines: List::new(alloc),
            texts: List::new(alloc),
            has_call: false,
        }
    }

    /// The settings, with plain addresses where no line gives any.
    #[tactic(auto, unfolding(world_model::specs::Reading::settled, world_model::specs::Reading::settled_if))]
    pub fn settled(&self) -> Config
        ensures { result ≡ settled (reading_seen self.now) }
    {
        if self.has_adapter {
            self.config
        } else {
            with_plain_addresses(&self.config)
        }
    }

    /// The script, where no line of this number follows; settings of a node lack their `begin` there.
    #[tactic(auto, unfolding(world_model::specs::Reading::at_end, world_model::specs::Reading::script_in), using(crate::proofs::ReadLaws::newest_back))]
    pub fn finish(self, number: u32) -> Result<Script, ScriptFault>
        ensures { GivesScript result (at_end (reading_seen self) number) }
    {
        if lacks_begin(self.aim, self.begun) {
            return Err(ScriptFault::Line(number, LineWhy::MissingWord));
        }
        let config = self.settled();
        Ok(Script {
            config,
            begun: self.begun,
            lines: self.lines,
            texts: self.texts,
        })
    }

    #[tactic(auto, unfolding(world_model::specs::Reading::with_line), using(std::proofs::lemmas::Grind::common_steps))]
    fn take_line(&mut self, line: Line) -> Result<(), NoMemory>
        ensures { OnOk result (reading_seen self.new ≡ with_line (reading_seen self.old) line) }
    {
        self.lines.push(line)
    }

    #[tactic(auto, unfolding(world_model::specs::Reading::with_call), using(std::proofs::lemmas::Grind::common_steps))]
    fn take_call(&mut self, node: u8, call: CallLine) -> Result<(), NoMemory>
        ensures { OnOk result (reading_seen self.new
            ≡ with_call (reading_seen self.old) node call) }
    {
        self.lines.push(Line::Plain(Event::Call(node, call)))?;
        self.has_call = true;
        Ok(())
    }

    /// Keeps the bytes of the line that was taken, if it is a call.
    #[tactic(auto, unfolding(world_model::specs::Reading::with_text), using(std::proofs::lemmas::Grind::common_steps))]
    pub fn keep_text(&mut self, alloc: Global, line: &[u8]) -> Result<(), NoMemory>
        ensures { OnOk result (reading_seen self.new
            ≡ with_text (reading_seen self.old) line.now self.old.has_call) }
    {
        if self.has_call {
            self.texts.push(List::of(alloc, line)?)?;
            self.has_call = false;
        }
        Ok(())
    }

    #[tactic(auto, unfolding(world_model::specs::Reading::with_client, world_model::specs::Reading::with_call))]
    fn take_client(
        &mut self,
        alloc: Global,
        node: u8,
        name: List<u8>,
        votes: ClientVotes,
    ) -> Result<(), NoMemory>
        ensures { OnOk result (reading_seen self.new
            ≡ with_client (reading_seen self.old) node name (votes_seen votes)) }
    {
        let known = List::of(alloc, name.as_slice())?;
        self.left = left_after(self.aim, node, &votes, self.left);
        let votes = votes.into_word(alloc)?;
        self.clients.add(known, node)?;
        self.take_call(node, CallLine::Init { node, name, votes })
    }

    /// Takes in what a good line says.
    #[tactic(auto, unfolding(world_model::specs::Reading::taken, world_model::specs::Reading::with_config, world_model::specs::Reading::with_address, node_state::specs::Settings::addresses_on))]
    pub fn take(&mut self, alloc: Global, said: Said) -> Result<(), NoMemory>
        ensures { OnOk result (reading_seen self.new
            ≡ taken (reading_seen self.old) (said_seen said)) }
    {
        match said {
            Said::Mode(mode) => {
                self.config.mode = mode;
                self.has_mode = true;
                Ok(())
            }
            Said::Node(node) => {
                self.config.nodes = self.config.nodes.with(node);
                Ok(())
            }
            Said::Adapter(node, network, address) => {
                set_address(&mut self.config.addr, node, network, address);
                self.has_adapter = true;
                Ok(())
            }
            Said::Hb(every, misses) => {
                self.config.every = every;
                self.config.misses = misses;
                self.has_hb = true;
                Ok(())
            }
            Said::Port(port) => {
                self.config.port = port;
                self.has_port = true;
                Ok(())
            }
            Said::Level(node, inc) => {
                set_number(&mut self.config.level_from, node, inc);
                Ok(())
            }
            Said::Domain(domain) => {
                self.config.domain = domain;
                self.has_domain = true;
                Ok(())
            }
            Said::Begin => {
                self.begun = true;
                Ok(())
            }
            Said::Line(_, line) => self.take_line(line),
            Said::Client(node, name, votes) => self.take_client(alloc, node, name, votes),
            Said::Call(call) => {
                let node = self.clients.node_of(caller(&call));
                self.take_call(node, call)
            }
        }
    }
}
