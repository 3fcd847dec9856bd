ghost use Rattle.std.specs.Prelude.{◌≡◌, ◌≤◌};
ghost use Rattle.protocol.specs.Sites.{at as at_site, put_at, of_all, number_at, each_of, how_many, lacking};
ghost use Rattle.protocol.specs.Faults.{site_at};

use crate::faults::Fault;

// One of the four cells of a line.
#[derive(Clone, Copy, Debug, Default, PartialEq, Eq)]
pub enum Site {
    #[default]
    Cell0,
    Cell1,
    Cell2,
    Cell3,
}

impl Site {
    // The cells in rising order.
    pub const ALL: [Site; 4] = [Site::Cell0, Site::Cell1, Site::Cell2, Site::Cell3];
}

// The numbers of the cells, in one direction and below in the other: a match for each is the table itself.
impl TryFrom<usize> for Site {
    type Error = Fault;

    ghost try_from_gives = { λ cell r. r ≡ site_at cell };

    // The cell with the number, or a refusal above 3.
    fn try_from(cell: usize) -> Result<Site, Fault> {
        match cell {
            0 => Ok(Site::Cell0),
            1 => Ok(Site::Cell1),
            2 => Ok(Site::Cell2),
            3 => Ok(Site::Cell3),
            _ => Err(Fault::NoCell(cell)),
        }
    }
}

impl From<Site> for u64 {
    ghost from_gives = { λ site r. r ≡ number_at site };

    fn from(site: Site) -> u64 {
        match site {
            Site::Cell0 => 0,
            Site::Cell1 => 1,
            Site::Cell2 => 2,
            Site::Cell3 => 3,
        }
    }
}

// One thing for each cell.
// Four named fields and no array: each read and write is total, and an array would want a default or a bound at each place.
#[derive(Clone, Copy, Debug, Default, PartialEq, Eq)]
pub struct PerSite<T> {
    pub cell0: T,
    pub cell1: T,
    pub cell2: T,
    pub cell3: T,
}

impl<T: Copy> PerSite<T> {
    // The same thing for every cell.
    pub fn all(value: T) -> Self
        ensures { result ≡ of_all value }
    {
        PerSite {
            cell0: value,
            cell1: value,
            cell2: value,
            cell3: value,
        }
    }

    pub fn get(&self, site: Site) -> T
        ensures { result ≡ at_site self.now site }
    {
        match site {
            Site::Cell0 => self.cell0,
            Site::Cell1 => self.cell1,
            Site::Cell2 => self.cell2,
            Site::Cell3 => self.cell3,
        }
    }

    pub fn put(&mut self, site: Site, value: T)
        ensures { self.new ≡ put_at self.old site value }
    {
        match site {
            Site::Cell0 => self.cell0 = value,
            Site::Cell1 => self.cell1 = value,
            Site::Cell2 => self.cell2 = value,
            Site::Cell3 => self.cell3 = value,
        }
    }

    // What the function makes of each cell's thing.
    pub fn map<U, F: Fn(T) -> U>(self, f: F) -> PerSite<U>
        requires { F.IsAlwaysCallable f }
        ensures cell0 { F.post f self.cell0 result.cell0 }
        ensures cell1 { F.post f self.cell1 result.cell1 }
        ensures cell2 { F.post f self.cell2 result.cell2 }
        ensures cell3 { F.post f self.cell3 result.cell3 }
    {
        PerSite {
            cell0: f(self.cell0),
            cell1: f(self.cell1),
            cell2: f(self.cell2),
            cell3: f(self.cell3),
        }
    }

    // What the function makes of each cell's thing and the other's.
    pub fn zip_with<U: Copy, V, F: Fn(T, U) -> V>(self, other: PerSite<U>, f: F) -> PerSite<V>
        requires { F.IsAlwaysCallable f }
        ensures cell0 { F.post f self.cell0 other.cell0 result.cell0 }
        ensures cell1 { F.post f self.cell1 other.cell1 result.cell1 }
        ensures cell2 { F.post f self.cell2 other.cell2 result.cell2 }
        ensures cell3 { F.post f self.cell3 other.cell3 result.cell3 }
    {
        PerSite {
            cell0: f(self.cell0, other.cell0),
            cell1: f(self.cell1, other.cell1),
            cell2: f(self.cell2, other.cell2),
            cell3: f(self.cell3, other.cell3),
        }
    }

    // The four, from cell 0 on.
    pub fn into_array(self) -> [T; 4]
        ensures { result ≡ each_of self }
    {
        [self.cell0, self.cell1, self.cell2, self.cell3]
    }
}

// How many cells are marked.
pub fn count_marked(marks: &PerSite<bool>) -> usize
    ensures value { result ≡ how_many marks.now }
    ensures bound { result ≤ 4 }
{
    marks.into_array().iter().filter(|mark| **mark).count()
}

// The cells that `marks` has and `others` has not.
pub fn lacking_marks(marks: &PerSite<bool>, others: &PerSite<bool>) -> PerSite<bool>
    ensures { result ≡ lacking marks.now others.now }
{
    marks.zip_with(*others, |mark, other| mark && !other)
}
