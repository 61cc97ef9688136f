//! How a server begins.
use crate::fault::{Fault, Result};
use crate::fields::{first_of, number_of};
use express_words::Settings;
use node_restart::{Opening, Role};

/// How a server begins.
#[derive(Clone, Copy)]
pub(crate) struct Beginning {
    pub(crate) opening: Opening,
}

impl Beginning {
    /// A leader with a seed of zeros, of this width and so many boxes, lanes and commands in its window.
    pub(crate) fn of(text: &str) -> Result<Beginning> {
        let (width, text) = first_of(text)?;
        let (boxes, text) = first_of(text)?;
        let (lanes, window) = first_of(text)?;
        let (width, boxes) = (number_of(width)?, number_of(boxes)?);
        let settings = Settings::new(width, boxes, number_of(lanes)?, number_of(window)?);
        let opening = Opening {
            role: Role::Leader,
            settings: settings.ok_or(Fault::Unknown)?,
            seed: [0; 32],
        };
        Ok(Beginning { opening })
    }

    /// This server with this seed, of the same settings.
    pub(crate) fn with(&self, role: Role, seed: [u8; 32]) -> Beginning {
        let settings = self.opening.settings;
        Beginning {
            opening: Opening {
                role,
                settings,
                seed,
            },
        }
    }
}
