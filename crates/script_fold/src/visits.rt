//! The hosts of the contexts, and how many jobs entered each.

ghost use Rattle.std.specs.Prelude.{◌≡◌, ◌≤◌, ◌++◌, ◌∷◌, ℕ, [], List, suc, length, map, filter, true, OnOk, IfOk};
ghost use Rattle.std.specs.List.{zip};
ghost use Rattle.std.specs.List.Sorted.{IsStrictlySortedBy};
ghost use Rattle.wave_base.specs.declared.path.Path.{Path};
ghost use Rattle.wave_base.specs.Paths.{path_cmp, parent_of};
ghost use Rattle.wave_base.specs.Places.{with_context, with_contexts, after_job, move_in};
ghost use Rattle.wave_base.specs.Tree.{Tree, put, there};
ghost use Rattle.script_fold.specs.inner.Visiting.{AreInOrder, IsVisited, IsMoveWithin, host_at, load_at, no_load, with_job, place_in, loads_in};
ghost use Rattle.script_fold.specs.Lives.{has_load, is_at};

use std::alloc::Global;
use std::collections::BTreeMap;
use wave_base::{Host, OutOfMemory, Outcome, Path, Place, Seq, Start};

/// How many jobs entered a context, and the last of them, where the first job of the run is 1.
#[derive(Clone, Copy)]
pub struct Load {
    /// How many jobs have entered it.
    pub count: u64,
    /// The last job that entered it, from 1; 0 where none has.
    pub last: u64,
}

/// All contexts with their hosts, in path order, and the loads of those that a job of the run entered. So what a run costs does not grow with the
/// contexts that it leaves alone.
#[derive(Drop)]
pub struct Visits {
    hosts: BTreeMap<Path, Host>,
    loads: BTreeMap<Path, Load>,
}

impl Load {
    // It is entered by this job, which counts once.
    fn with_job(&self, job: u64) -> Load
        requires few { self.now.count ≤ self.now.last }
        requires last { self.now.last ≤ job }
        ensures { result ≡ with_job job self.now }
    {
        if self.last == job {
            return *self;
        }
        Load {
            count: self.count + 1,
            last: job,
        }
    }
}

impl Visits {
    /// No job has entered any of these contexts.
    pub fn start(alloc: Global, start: &Start) -> Result<Visits, OutOfMemory>
        requires { IsStrictlySortedBy path_cmp (map (λ x. x.path) start.now.places) }
        ensures places { IfOk result (λ v. map place_in v.hosts.entries ≡ start.now.places) }
        ensures loads { IfOk result (λ v. v.loads.entries ≡ []) }
    {
        let mut hosts = BTreeMap::new(alloc);
        let places = start.places.as_slice();
        for place in places {
            hosts.insert(place.path, place.host)?;
        }
        Ok(Visits {
            hosts,
            loads: BTreeMap::new(alloc),
        })
    }

    /// A run is over, and none of the next one has entered any context.
    pub fn clear(&mut self)
        ensures hosts { self.new.hosts ≡ self.old.hosts }
        ensures loads { self.new.loads.entries ≡ [] }
    {
        self.loads.clear();
    }

    fn host_of(&self, path: &Path) -> Host
        ensures { result ≡ host_at self.now.hosts.entries path.now }
    {
        match self.hosts.get(path) {
            Some(host) => *host,
            None => Host(0),
        }
    }

    fn load_of(&self, path: &Path) -> Load
        ensures { result ≡ load_at self.now.loads.entries path.now }
    {
        match self.loads.get(path) {
            Some(load) => *load,
            None => Load { count: 0, last: 0 },
        }
    }

    // A context that a job enters. The load of one that has some is counted where it stands.
    fn enter(&mut self, job: u64, path: &Path) -> Result<(), OutOfMemory>
        requires { (hosts : Tree ℕ) × (earlier : List (List Path)) × (now : List Path) × (job ≡ suc (length earlier)) × IsVisited hosts earlier now self.old }
        ensures { (hosts : Tree ℕ) (earlier : List (List Path)) (now : List Path) → job ≡ suc (length earlier) → IsVisited hosts earlier now self.old → OnOk result (IsVisited (with_context hosts path.now) earlier (now ++ path.now ∷ []) self.new) }
    {
        match self.loads.get_mut(path) {
            Some(load) => {
                *load = load.with_job(job);
                Ok(())
            }
            None => self.enter_first(job, path),
        }
    }

    // A context that no job has entered yet.
    fn enter_first(&mut self, job: u64, path: &Path) -> Result<(), OutOfMemory>
        requires { load_at self.old.loads.entries path.now ≡ no_load }
        ensures { (hosts : Tree ℕ) (earlier : List (List Path)) (now : List Path) → job ≡ suc (length earlier) → IsVisited hosts earlier now self.old → OnOk result (IsVisited (with_context hosts path.now) earlier (now ++ path.now ∷ []) self.new) }
    {
        self.join(path)?;
        let unseen = Load { count: 0, last: 0 };
        self.loads.insert(*path, unseen.with_job(job))?;
        Ok(())
    }

    // A context is there: a new one is where its parent is.
    fn join(&mut self, path: &Path) -> Result<(), OutOfMemory>
        ensures loads { self.new.loads ≡ self.old.loads }
        ensures visited { (hosts : Tree ℕ) (earlier : List (List Path)) (now : List Path) → IsVisited hosts earlier now self.old → OnOk result (IsVisited (with_context hosts path.now) earlier now self.new) }
    {
        if self.hosts.contains_key(path) {
            return Ok(());
        }
        let host = self.host_of(&parent(path));
        self.hosts.insert(*path, host)?;
        Ok(())
    }

    // The contexts that a job enters.
    fn enter_all(&mut self, job: u64, paths: &[Path]) -> Result<(), OutOfMemory>
        requires { (hosts : Tree ℕ) × (earlier : List (List Path)) × (job ≡ suc (length earlier)) × IsVisited hosts earlier [] self.old }
        ensures { (hosts : Tree ℕ) (earlier : List (List Path)) → job ≡ suc (length earlier) → IsVisited hosts earlier [] self.old → OnOk result (IsVisited (with_contexts hosts paths.now) (earlier ++ paths.now ∷ []) [] self.new) }
    {
        for path in paths {
            self.enter(job, path)?;
        }
        Ok(())
    }

    /// What a job entered, and then the move that it tells.
    pub fn after_job(
        &mut self,
        job: u64,
        paths: &[Path],
        outcome: &Outcome,
    ) -> Result<(), OutOfMemory>
        requires { (hosts : Tree ℕ) × (earlier : List (List Path)) × (job ≡ suc (length earlier)) × IsVisited hosts earlier [] self.old }
        ensures { (hosts : Tree ℕ) (earlier : List (List Path)) → job ≡ suc (length earlier) → IsVisited hosts earlier [] self.old → IsMoveWithin hosts paths.now outcome.now → OnOk result (IsVisited (after_job hosts paths.now (move_in outcome.now)) (earlier ++ paths.now ∷ []) [] self.new) }
    {
        self.enter_all(job, paths)?;
        if let Outcome::Moved(path, host) = outcome {
            self.set_host(path, *host);
        }
        Ok(())
    }

    // A context that is there moves to a host.
    fn set_host(&mut self, path: &Path, host: Host)
        ensures { (hosts : Tree ℕ) (earlier : List (List Path)) → there hosts path.now ≡ true → IsVisited hosts earlier [] self.old → IsVisited (put hosts path.now host.0) earlier [] self.new }
    {
        match self.hosts.get_mut(path) {
            Some(there) => *there = host,
            None => {}
        }
    }

    /// The hosts, in path order.
    pub fn places(&self, alloc: Global) -> Result<Seq<Place>, OutOfMemory>
        ensures { IfOk result (λ places. places ≡ map place_in self.now.hosts.entries) }
    {
        let mut places = Vec::new(alloc);
        for (path, host) in self.hosts.iter() {
            places.push(Place {
                path: *path,
                host: *host,
            })?;
        }
        Ok(Seq::from_vec(places))
    }

    /// How many jobs entered each, in path order.
    pub fn loads(&self, alloc: Global) -> Result<Seq<u64>, OutOfMemory>
        ensures { IfOk result (λ loads. loads ≡ loads_in self.now) }
    {
        let mut loads = Vec::new(alloc);
        for (path, _) in self.hosts.iter() {
            loads.push(self.load_of(path).count)?;
        }
        Ok(Seq::from_vec(loads))
    }

    /// The contexts that a job entered, with how many did.
    pub fn places_with_loads(&self, alloc: Global) -> Result<(Seq<Place>, Seq<u64>), OutOfMemory>
        requires { AreInOrder self.now }
        ensures paired { IfOk result (λ r. length r.0 ≡ length r.1) }
        ensures found { IfOk result (λ r. zip r.0 r.1 ≡ filter has_load (zip (map place_in self.now.hosts.entries) (loads_in self.now))) }
    {
        let mut places = Vec::new(alloc);
        let mut loads = Vec::new(alloc);
        for (path, load) in self.loads.iter() {
            places.push(Place {
                path: *path,
                host: self.host_of(path),
            })?;
            loads.push(load.count)?;
        }
        Ok((Seq::from_vec(places), Seq::from_vec(loads)))
    }

    /// The contexts on a host, with how many jobs entered each.
    pub fn on_host(&self, alloc: Global, host: Host) -> Result<(Seq<Place>, Seq<u64>), OutOfMemory>
        ensures paired { IfOk result (λ r. length r.0 ≡ length r.1) }
        ensures found { IfOk result (λ r. zip r.0 r.1 ≡ filter (is_at host.0) (zip (map place_in self.now.hosts.entries) (loads_in self.now))) }
    {
        let mut places = Vec::new(alloc);
        let mut loads = Vec::new(alloc);
        for (path, its) in self.hosts.iter() {
            if *its == host {
                places.push(Place {
                    path: *path,
                    host: *its,
                })?;
                loads.push(self.load_of(path).count)?;
            }
        }
        Ok((Seq::from_vec(places), Seq::from_vec(loads)))
    }
}

// The path above; the root's is the root's.
fn parent(path: &Path) -> Path
    ensures { result ≡ parent_of path.now }
{
    match path.parent() {
        Some(above) => above,
        None => Path::root(),
    }
}
